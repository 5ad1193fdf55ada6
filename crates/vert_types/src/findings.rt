//! The first of the faults found so far.
ghost use Rattle.std.specs.Prelude.{◌≡◌, Some};
ghost use Rattle.vert_types.specs.Findings.{first_from, is_before, sooner, unless};

use crate::fault::Finding;
use vert_base::Span;

/// The code of a name that no declaration gives.
pub(crate) const UNDECLARED: u8 = 1;
/// The code of a name that was declared before.
pub(crate) const DECLARED_BEFORE: u8 = 2;
/// The code of an expression or a target of the wrong type.
pub(crate) const MISTYPED: u8 = 3;
/// The code of a name or word where it isn't readable, assignable or of that use.
pub(crate) const MISUSED: u8 = 4;
/// The code of a program with neither a dense nor a sparse block.
pub(crate) const BLOCKLESS: u8 = 5;
/// The code of a mode whose block is missing.
pub(crate) const HALF_BLOCKED: u8 = 6;
/// The code of a limit that is too great.
pub(crate) const OVERLONG: u8 = 7;
/// The code of a draw's number that is no byte.
pub(crate) const OVERDRAWN: u8 = 8;

/// The first of the faults found so far.
#[derive(Clone, Copy)]
pub(crate) struct Findings {
    pub first: Option<Finding>,
}

fn is_before(a: &Finding, b: &Finding) -> bool
    ensures { result ≡ is_before a.now b.now }
{
    a.span.at < b.span.at || (a.span.at == b.span.at && a.code < b.code)
}

impl Findings {
    /// Keeps one more fault, if it is before the first one.
    pub(crate) fn note(&mut self, code: u8, span: Span)
        ensures { self.new.first ≡ Some
            (sooner self.old.first (record { code = code; span = span })) }
    {
        let finding = Finding { code, span };
        match self.first {
            Some(first) => {
                if is_before(&finding, &first) {
                    self.first = Some(finding);
                }
            }
            None => self.first = Some(finding),
        }
    }

    /// A fault where a test doesn't hold.
    pub(crate) fn unless(&mut self, holds: bool, code: u8, span: Span)
        ensures { self.new.first ≡ first_from self.old.first (unless holds code span) }
    {
        if !holds {
            self.note(code, span);
        }
    }
}
