ghost use Rattle.std.specs.Prelude.{◌≡◌, ◌≤◌, length};
ghost use Rattle.std.specs.List.{prefix_len};
ghost use Rattle.sg_reader.specs.Field.{after_front};
ghost use Rattle.sg_json.specs.Text.{is_object_text, is_white as is_white_byte, opens as opens_list};

use sg_reader::without_marks;

fn is_white(byte: u8) -> bool
    ensures { result ≡ is_white_byte byte }
{
    byte == b' ' || byte == b'\t' || byte == b'\r' || byte == b'\n'
}

// How many bytes of white space a text begins with.
fn white_before(text: &[u8]) -> usize
    ensures value { result ≡ prefix_len is_white_byte text.now }
    ensures within { result ≤ length text.now }
{
    text.iter().take_while(|byte| is_white(**byte)).count()
}

fn after_white(text: &[u8]) -> &[u8]
    ensures { result.now ≡ after_front is_white_byte text.now }
{
    &text[white_before(text)..]
}

fn opens(text: &[u8]) -> bool
    ensures { result ≡ opens_list text.now }
{
    match text {
        [first, ..] => *first == b'{',
        [] => false,
    }
}

/// Whether an input is JSON: its first byte that is no white space, behind all byte-order marks, is
/// `{`. In time linear in what precedes it, and without allocating.
pub fn is_json(bytes: &[u8]) -> bool
    ensures { result ≡ is_object_text bytes.now }
{
    opens(after_white(without_marks(bytes)))
}
