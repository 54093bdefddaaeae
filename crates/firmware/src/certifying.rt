// The certificate of a file.
ghost use Rattle.std.specs.Prelude.{◌≡◌};
ghost use Rattle.firmware.specs.Certificates.{CertificateLaw, NumberLaw, file_certificate, number_by};

use crate::file_cores::FileCores;
use certificate::{Certificate, NotCertified, certify};
use graph::Plan;
use planfile::{Fault, MOST_BLOCKS, NO_BLOCK, read};

// Reads a file and certifies its plan on the cores that it grants.
pub fn certify_file(file: &[u8]) -> Result<Certificate, Fault>
    ensures answer { result ≡ file_certificate file.now }
    ensures law { CertificateLaw file.now }
{
    let mut plan = Plan::empty();
    let mut blocks = [NO_BLOCK; MOST_BLOCKS];
    let layers = read(file, &mut plan, &mut blocks)?;
    Ok(certify(&plan, &FileCores::new(&blocks, layers)))
}

// 0 for a certified file, else the number of its refusal, 1 to 11: a number, since C gets it.
pub fn vaxerku_certify(file: &[u8]) -> u32
    ensures number { result ≡ number_by (file_certificate file.now) }
    ensures law { NumberLaw file.now result }
{
    let number = match certify_file(file) {
        Ok(certificate) => certificate.refusal().map_or(0, NotCertified::number),
        Err(fault) => fault.cause.number(),
    };
    u32::from(number)
}
