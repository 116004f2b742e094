//! What a command writes, before it is written.

ghost use Rattle.std.specs.Prelude.{◌≡◌, ◌≢◌, ◌++◌, codes, IfOk};
ghost use Rattle.link_manifest.specs.FaultText.{fault_text};
ghost use Rattle.link_rules.specs.declared.refusal.LinkError.TheVariants.{Memory};
ghost use Rattle.link_rules.specs.Report.{refusal_text};
ghost use Rattle.link_program.specs.Described.{error_line};

use crate::status::Status;
use link_manifest::ManifestFault;
use link_report::refusal_text;
use link_rules::LinkError;
use std::alloc::{AllocError, Global};

/// What is to be written, and how the command ends once it is written.
#[derive(Drop)]
pub struct Answer {
    pub status: Status,
    pub text: Vec<u8>,
}

/// The answer to a link that is refused; none where memory ran out.
pub fn refusal_answer(alloc: Global, error: LinkError) -> Result<Answer, AllocError>
    ensures cause { IfOk result (λ a. error ≢ Memory) }
    ensures status { IfOk result (λ a. a.status ≡ Status.Refused) }
    ensures text { IfOk result (λ a. a.text.items ≡ error_line (refusal_text error)) }
{
    match error {
        LinkError::Memory => Err(AllocError),
        _ => {
            let cause = refusal_text(alloc, &error)?;
            error_answer(alloc, Status::Refused, &cause)
        }
    }
}

/// The answer to bytes that are no manifest.
pub fn fault_answer(alloc: Global, fault: &ManifestFault) -> Result<Answer, AllocError>
    ensures status { IfOk result (λ a. a.status ≡ Status.Manifest) }
    ensures text { IfOk result (λ a. a.text.items ≡ error_line (codes "manifest: " ++ fault_text fault.now)) }
{
    let what = format!(in alloc; "manifest: {fault}")?;
    error_answer(alloc, Status::Manifest, what.as_bytes())
}

/// The answer of a line that tells an error.
pub fn error_answer(alloc: Global, status: Status, what: &[u8]) -> Result<Answer, AllocError>
    ensures status { IfOk result (λ a. a.status ≡ status) }
    ensures text { IfOk result (λ a. a.text.items ≡ error_line what.now) }
{
    let mut text = Vec::from_slice(alloc, b"error: ")?;
    text.extend_from_slice(what)?;
    text.extend_from_slice(b"\n")?;
    Ok(Answer { status, text })
}
