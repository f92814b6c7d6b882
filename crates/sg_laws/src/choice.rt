ghost use Rattle.std.specs.Prelude.{◌≡◌, find};
ghost use Rattle.std.specs.Str.{bytes_eq};

use super::Disorder;

/// The first law with this name; the others are dropped. It does not allocate.
pub fn named(laws: Vec<Box<dyn Disorder>>, name: &str) -> Option<Box<dyn Disorder>>
    ensures { result ≡ find (λ law. bytes_eq (title law) name.now) laws.items }
{
    let mut laws = laws;
    for place in 0..laws.len() {
        if is_named(&laws[place], name) {
            return Some(laws.swap_remove(place));
        }
    }
    None
}

// Whether the law has this name.
fn is_named(law: &Box<dyn Disorder>, name: &str) -> bool
    ensures { result ≡ bytes_eq (title law.now) name.now }
{
    law.name() == name
}
