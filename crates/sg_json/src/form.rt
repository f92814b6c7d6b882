ghost use Rattle.std.specs.Prelude.{◌≡◌};
ghost use Rattle.std.specs.List.{list_all};
ghost use Rattle.serde_json.specs.View.{view};
ghost use Rattle.sg_json.specs.Members.{form_in, is_known as is_known_word, names_in};

use serde_json::Value;
use sg_reader::{Form, form_named};

/// The form of an instance, which its kind names.
pub(crate) fn form_member(value: &Value) -> Option<Form>
    ensures { result ≡ form_in (view value.now) }
{
    form_named(value.get("kind")?.as_str()?.as_bytes())
}

// Whether a name is one of the form.
fn is_known(form: Form, name: &str) -> bool
    ensures { result ≡ is_known_word form name.now }
{
    let own = match form {
        Form::Lattice(_) => name == "rows" || name == "cols" || name == "couplings",
        Form::General => name == "n" || name == "bonds" || name == "rotation",
    };
    own || name == "kind" || name == "seam"
}

/// Whether each name of an object is one of its form.
pub(crate) fn has_known_names(value: &Value, form: Form) -> bool
    ensures { result ≡ list_all (is_known_word form) (names_in (view value.now)) }
{
    match value.as_object() {
        Some(map) => map.keys().all(|name| is_known(form, name.as_str())),
        None => true,
    }
}
