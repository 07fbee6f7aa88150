//! Laws of the texts: what stands in answers needs no escape, so JSON writes it as it is, in quotation marks; and the
//! words of values and places say which bytes and which number they stand for.

ghost use Rattle.std.specs.Prelude.{◌≡◌, ◌<◌, ◌↔◌, ◌++◌, ◌∷◌, ℕ, List, true, false, length, codes, Some, Ok, []};
ghost use Rattle.std.specs.Str.{is_utf8};
ghost use Rattle.std.specs.Int.{to_be_bytes, w32};
ghost use Rattle.base64.specs.Engines.{standard};
ghost use Rattle.base64.specs.GeneralPurpose.{IsBytes, encode_of};
ghost use Rattle.hex.specs.Hex.{decode_of};
ghost use Rattle.json.specs.Print.{quoted};
ghost use Rattle.kv_keys.specs.Grammar.{is_key, is_name};
ghost use Rattle.kv_model.specs.Requests.{put};
ghost use Rattle.kv_script.specs.Commands.{Write, is_within_limits, line_command};
ghost use Rattle.kv_script.specs.Line.{in_quotes};
ghost use Rattle.kv_script.specs.Text.{base64_members, one, place_digits, value_members};
ghost use Rattle.kv_script.specs.Words.{value_of};

use crate::form::Form;

/// A key has nothing that JSON escapes.
pub fn keys_need_no_escape()
    ensures { (key : List ℕ) → is_key key ≡ true → quoted key ≡ in_quotes key }
{}

/// A bucket's name has nothing that JSON escapes.
pub fn names_need_no_escape()
    ensures { (name : List ℕ) → is_name name ≡ true → quoted name ≡ in_quotes name }
{}

/// The base64 of a value has nothing that JSON escapes.
pub fn values_need_no_escape()
    ensures { (value : List ℕ) → IsBytes value →
        quoted (encode_of standard value) ≡ in_quotes (encode_of standard value) }
{}

/// A word stands for bytes, of which there is at least one, exactly where it is their base64: in the standard alphabet,
/// with padding, and with no stray bits. So the word that `put` reads is the word that `get` shows. A dash stands for
/// no bytes.
pub fn words_are_the_base64_of_their_values()
    ensures some { (word value : List ℕ) → IsBytes word → IsBytes value → 0 < length value →
        (value_of word ≡ Some value) ↔ (word ≡ encode_of standard value) }
    ensures none { value_of (codes "-") ≡ Some [] }
{}

/// In text, a value stands in a line as it is, and an answer shows the same text, by the escapes of JSON: so what `put`
/// reads is what `get` shows. A value that is no text, which no such line has, stands in base64 under a name of its
/// own.
pub fn a_value_in_text_is_shown_as_it_was_read()
    ensures read { (key value : List ℕ) → is_key key ≡ true →
        is_within_limits (codes "put " ++ (key ++ 32 ∷ value)) ≡ true →
        line_command Form.Text (codes "put " ++ (key ++ 32 ∷ value)) ≡ Ok (Write (put key value)) }
    ensures shown { (key value : List ℕ) → is_within_limits (codes "put " ++ (key ++ 32 ∷ value)) ≡ true →
        value_members Form.Text (Some value) [] ≡ one (codes "value") (quoted value) }
    ensures other { (value : List ℕ) → is_utf8 value ≡ false →
        base64_members Form.Text (Some value) [] ≡ one (codes "base64") (quoted (encode_of standard value)) }
{}

/// A place is shown by eight hexadecimal digits, the highest first, which need no escape.
pub fn places_are_eight_digits()
    ensures eight { (place : ℕ) → length (place_digits place) ≡ 8 }
    ensures value { (place : ℕ) → decode_of (place_digits place) ≡ Ok (to_be_bytes w32 place) }
    ensures plain { (place : ℕ) → quoted (place_digits place) ≡ in_quotes (place_digits place) }
{}
