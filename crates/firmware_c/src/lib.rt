// The function that C calls, as `include/vaxerku.h` declares it.
#![tactic(auto)]

ghost use Rattle.std.specs.Prelude.{◌≡◌};
ghost use Rattle.firmware.specs.Certificates.{NumberLaw, file_certificate, number_by};

// 0 for a certified file, else the number of its refusal, 1 to 11. C has it as a pointer and a length; it keeps and alters nothing.
#[unsafe(no_mangle)]
pub extern "C" fn vaxerku_certify(file: &[u8]) -> u32
    ensures number { result ≡ number_by (file_certificate file.now) }
    ensures law { NumberLaw file.now result }
{
    firmware::vaxerku_certify(file)
}
