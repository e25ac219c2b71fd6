//! A small writer of JSON: strings, numbers, truth values and lists, appended to a buffer of bytes. Each write fails
//! only if memory runs out.

ghost use Rattle.std.specs.{List.{join_with_byte, list_all}, Prelude.{◌≡◌, ◌++◌, option_map, decimal, map, ◌==◌, ◌||◌, not, flat_map}};
ghost use Rattle.plant_types.specs.{Adding.{Adds}, Results.{OnlyMemory}};
ghost use Rattle.plant_wire_answer.specs.Json.{after_commas, escaped, listed, quoted, quoted_or_null, truth};

use itoa::Buffer;
use plant_types::Fault;

/// How many bytes are allocated for an object at first; most take fewer.
pub(crate) const BODY_ROOM: usize = 256;

/// Whether the byte is written with a backslash before it in a string.
fn is_escaped(b: u8) -> bool
    ensures { result ≡ (b == 34 || b == 92) }
{
    b == b'"' || b == b'\\'
}

fn push_escaped(out: &mut Vec<u8>, b: u8) -> Result<(), Fault>
    ensures value { Adds result out.old.items out.new.items (escaped b) }
    ensures err { OnlyMemory result }
{
    if is_escaped(b) {
        out.push(b'\\')?;
    }
    Ok(out.push(b)?)
}

/// Whether no byte of the text is escaped.
fn is_plain(text: &[u8]) -> bool
    ensures { result ≡ list_all (λ b. not (b == 34 || b == 92)) text.now }
{
    text.iter().all(|b| !is_escaped(*b))
}

#[tactic(auto, using(crate::proofs::Plain::plain_text))]
fn push_all_escaped(out: &mut Vec<u8>, text: &[u8]) -> Result<(), Fault>
    ensures value { Adds result out.old.items out.new.items (flat_map escaped text.now) }
    ensures err { OnlyMemory result }
{
    if is_plain(text) {
        return Ok(out.extend_from_slice(text)?);
    }
    for b in text {
        push_escaped(out, *b)?;
    }
    Ok(())
}

/// Adds a JSON string. Only quotes and backslashes of the text are escaped.
#[tactic(auto, unfolding(crate::specs::Json::quoted))]
pub fn push_quoted(out: &mut Vec<u8>, text: &[u8]) -> Result<(), Fault>
    ensures value { Adds result out.old.items out.new.items (quoted text.now) }
    ensures err { OnlyMemory result }
{
    out.push(b'"')?;
    push_all_escaped(out, text)?;
    Ok(out.push(b'"')?)
}

/// Adds a number.
pub(crate) fn push_decimal(out: &mut Vec<u8>, number: u64) -> Result<(), Fault>
    ensures value { Adds result out.old.items out.new.items (decimal number) }
    ensures err { OnlyMemory result }
{
    let mut buffer = Buffer::new();
    Ok(out.extend_from_slice(buffer.format(number).as_bytes())?)
}

/// Adds the bytes `before`, and then a number.
pub(crate) fn push_number(out: &mut Vec<u8>, before: &[u8], number: u64) -> Result<(), Fault>
    ensures value { Adds result (out.old.items ++ before.now) out.new.items (decimal number) }
    ensures err { OnlyMemory result }
{
    out.extend_from_slice(before)?;
    push_decimal(out, number)
}

/// Adds the bytes `before`, and then a string.
pub(crate) fn push_string(out: &mut Vec<u8>, before: &[u8], text: &[u8]) -> Result<(), Fault>
    ensures value { Adds result (out.old.items ++ before.now) out.new.items (quoted text.now) }
    ensures err { OnlyMemory result }
{
    out.extend_from_slice(before)?;
    push_quoted(out, text)
}

/// Adds the bytes `before`, and then a string, or null for `None`.
pub(crate) fn push_string_or_null(
    out: &mut Vec<u8>,
    before: &[u8],
    text: Option<&[u8]>,
) -> Result<(), Fault>
    ensures value { Adds result (out.old.items ++ before.now) out.new.items
        (quoted_or_null (option_map (λ t. t.now) text.entry)) }
    ensures err { OnlyMemory result }
{
    out.extend_from_slice(before)?;
    match text {
        Some(text) => push_quoted(out, text),
        None => Ok(out.extend_from_slice(b"null")?),
    }
}

/// Adds the bytes `before`, and then true or false.
pub(crate) fn push_truth(out: &mut Vec<u8>, before: &[u8], holds: bool) -> Result<(), Fault>
    ensures value { Adds result (out.old.items ++ before.now) out.new.items (truth holds) }
    ensures err { OnlyMemory result }
{
    let word: &[u8] = if holds { b"true" } else { b"false" };
    out.extend_from_slice(before)?;
    Ok(out.extend_from_slice(word)?)
}

/// A value that can be written into a JSON list.
pub(crate) trait Json: Drop {
    ghost use Rattle.std.specs.Prelude.{ℕ, List};

    ghost json: { Self → List ℕ };

    /// Adds the value as JSON.
    fn push(&self, out: &mut Vec<u8>) -> Result<(), Fault>
        ensures value { Adds result out.old.items out.new.items (json self.now) }
        ensures err { OnlyMemory result };
}

impl Json for u64 {
    ghost json = { decimal };

    fn push(&self, out: &mut Vec<u8>) -> Result<(), Fault> {
        push_decimal(out, *self)
    }
}

/// Adds the values, each after a comma.
fn push_after_commas<T: Json>(out: &mut Vec<u8>, values: &[T]) -> Result<(), Fault>
    ensures value { Adds result out.old.items out.new.items (after_commas T.json values.now) }
    ensures err { OnlyMemory result }
{
    for value in values {
        out.push(b',')?;
        value.push(out)?;
    }
    Ok(())
}

/// Adds the values, with a comma between each two.
fn push_with_commas<T: Json>(out: &mut Vec<u8>, values: &[T]) -> Result<(), Fault>
    ensures value { Adds result out.old.items out.new.items
        (join_with_byte 44 (map T.json values.now)) }
    ensures err { OnlyMemory result }
{
    match values {
        [] => Ok(()),
        [first, rest @ ..] => {
            first.push(out)?;
            push_after_commas(out, rest)
        }
    }
}

/// Adds a list of the values.
pub(crate) fn push_listed<T: Json>(out: &mut Vec<u8>, values: &[T]) -> Result<(), Fault>
    ensures value { Adds result out.old.items out.new.items (listed (map T.json values.now)) }
    ensures err { OnlyMemory result }
{
    out.push(b'[')?;
    push_with_commas(out, values)?;
    Ok(out.push(b']')?)
}
