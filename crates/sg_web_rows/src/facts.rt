// What must hold. An assertion costs the prover most beside lists that are to be dropped: this one owns none.
ghost use Rattle.std.specs.Prelude.{IsTrue};

use std::process::Abort;

/// A fact must hold. At a failure the test prints what it is about.
pub fn expect(rt: &impl Abort, about: &str, fact: bool)
    ensures { IsTrue fact }
{
    assert!(rt; fact, "{about}");
}

/// Whether a list is the one that is wanted, if any is.
pub fn is_wanted(list: &[u32], wanted: Option<&[u32]>) -> bool {
    match wanted {
        Some(other) => list == other,
        None => true,
    }
}
