// The text of an answer, laid out in a place of fixed size.
ghost use Rattle.std.specs.Prelude.{◌≡◌, ℕ, ◌^◌, ◌<◌, ◌≤◌, length, All};
ghost use Rattle.firmware.specs.Text.{bytes_of, content, written, certificate_text, fault_text, text_of, laid_out, Legible};

use crate::text::Text;
use certificate::Certificate;
use planfile::Fault;

fn certificate_lines(text: &mut Text, certificate: Certificate)
    ensures { content text.new ≡ written (content text.old) (certificate_text certificate) }
{
    text.line(b"volume ", u64::from(certificate.volume));
    text.line(b"length ", u64::from(certificate.length));
    text.line(b"deadline ", u64::from(certificate.deadline));
    text.line(b"least ", certificate.least);
    match certificate.refusal() {
        None => text.word(b"certified\n"),
        Some(refusal) => text.line(b"refused ", u64::from(refusal.number())),
    }
}

fn fault_line(text: &mut Text, fault: Fault)
    ensures { content text.new ≡ written (content text.old) (fault_text fault) }
{
    text.word(b"refused ");
    text.number(u64::from(fault.cause.number()));
    text.line(b" at ", fault.place as u64);
}

// Lays out the answer's text. Every text fits, so none is cut, and its end is the first zero.
pub fn lay_out(answer: Result<Certificate, Fault>) -> Text
    ensures bytes { bytes_of (content result) ≡ laid_out answer }
    ensures content { content result ≡ text_of answer }
    ensures fits { length (text_of answer) ≤ 128 }
    ensures whole { All (λ byte. 0 < byte) (text_of answer) }
    ensures legible { (number : ℕ) → number < 2 ^ 64 → Legible number }
{
    let mut text = Text::new();
    match answer {
        Ok(certificate) => certificate_lines(&mut text, certificate),
        Err(fault) => fault_line(&mut text, fault),
    }
    text
}
