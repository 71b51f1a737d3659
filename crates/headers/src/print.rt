// How what the figures are about is printed.
use refusals::Refusal;
use std::fmt;

// A refusal's number and values. Those of a header count from 1, and 0 is none.
#[derive(Drop)]
pub(crate) struct Refused(pub(crate) Refusal);

impl fmt::Display for Refused {
    fn fmt<W: fmt::Write>(&self, f: &mut fmt::Formatter<W>) -> fmt::Result {
        let told = refusals::tell(self.0);
        write!(f, "refused {}", told.number)?;
        if 0 < told.first {
            write!(f, " at {}", told.first)?;
        }
        if 0 < told.second {
            write!(f, " {}", told.second)?;
        }
        Ok(())
    }
}
