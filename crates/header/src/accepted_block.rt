// A header block that no rule refuses. Whoever holds one need not ask again, and a function that takes one asks its caller for no proof of that.
#![tactic(auto)]

ghost use Rattle.std.specs.Prelude.{◌≡◌, Ok, Err, IfOk, IfErr};
ghost use Rattle.header.specs.Faults.{header_fault};

use crate::header_fault;
use refusals::Refusal;

#[derive(Clone, Copy)]
pub struct AcceptedBlock<'a> {
    pub block: &'a [u8],
    pub ghost accepted: { header_fault block.now ≡ Ok tt },
}

impl<'a> AcceptedBlock<'a> {
    // The very block that was lent, or its first refusal.
    pub fn of(block: &'a [u8]) -> Result<Self, Refusal>
        ensures ok { IfOk result (λ a. a.block ≡ block.entry) }
        ensures err { IfErr result (λ r. header_fault block.now ≡ Err r) }
    {
        header_fault(block)?;
        Ok(AcceptedBlock { block })
    }
}
