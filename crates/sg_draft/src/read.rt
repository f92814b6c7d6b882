ghost use Rattle.std.specs.Prelude.{◌≡◌};
ghost use Rattle.sg_draft.specs.Reads.{unless as unless_wrong};

/// A member of an input as it was read.
#[derive(Clone, Copy)]
pub enum Read<X> {
    /// Its value.
    Known(X),
    /// The entry at which it is wrong, and 0 where it is missing or of another form.
    WrongAt(usize),
}

/// So many entries, unless one is wrong.
pub fn unless(wrong: Option<usize>, entries: usize) -> Read<usize>
    ensures { result ≡ unless_wrong wrong entries }
{
    match wrong {
        Some(entry) => Read::WrongAt(entry),
        None => Read::Known(entries),
    }
}
