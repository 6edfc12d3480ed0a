//! The replies, each one object of compact JSON with its members in byte order (RFC 8259 section
//! 4).

ghost use Rattle.std.specs.Prelude.{◌≡◌, ◌+◌, ◌≤◌, ◌++◌, decimal, length, vec_len, vec_capacity, IfOk, OnOk};
ghost use Rattle.json_api.specs.Reply.{accepted_spelling, published_spelling, serial_spelling, reached_spelling, refusal_spelling};
ghost use Rattle.json_api.specs.inner.Tokens.{text_member, number_member, refusal_tokens};

use json::Writer;
use names::Name;
use std::alloc::{AllocError, Global};

/// What a publication comes to.
#[derive(Clone, Copy, Debug, PartialEq, Eq)]
pub struct PublishedReply {
    /// The serial of the edition.
    pub serial: u64,
    /// Seconds since 1970.
    pub moment: u64,
    /// How many objects stand published.
    pub objects: u64,
    /// How many origins they tell of.
    pub origins: u64,
}

// Room for most replies.
const REPLY_ROOM: usize = 128;

// The bytes of a refusal, escaped.
pub(crate) fn refusal_bytes(
    alloc: Global,
    code: u32,
    detail: &str,
    refused: &str,
) -> Result<Vec<u8>, AllocError>
    ensures { IfOk result (λ text. text.items ≡ refusal_spelling code detail.now refused.now) }
{
    let mut writer = Writer::new(Vec::with_capacity(alloc, REPLY_ROOM)?);
    write_refusal(&mut writer, code, detail, refused)?;
    Ok(writer.into_inner())
}

fn write_refusal(out: &mut Writer, code: u32, detail: &str, refused: &str) -> Result<(), AllocError>
    ensures ok { OnOk result (out.new.tokens
        ≡ out.old.tokens ++ refusal_tokens code detail.now refused.now) }
    ensures before { out.new.before ≡ out.old.before }
{
    out.begin_object()?;
    write_number(out, "code", u64::from(code))?;
    write_text(out, "detail", detail)?;
    write_text(out, "refused", refused)?;
    out.end_object()?;
    Ok(())
}

// One member.
fn write_text(out: &mut Writer, name: &str, text: &str) -> Result<(), AllocError>
    ensures ok { OnOk result (out.new.tokens ≡ out.old.tokens ++ text_member name.now text.now) }
    ensures before { out.new.before ≡ out.old.before }
{
    out.key(name)?;
    out.string(text)?;
    Ok(())
}

fn write_number(out: &mut Writer, name: &str, n: u64) -> Result<(), AllocError>
    ensures ok { OnOk result (out.new.tokens ≡ out.old.tokens ++ number_member name.now n) }
    ensures before { out.new.before ≡ out.old.before }
{
    out.key(name)?;
    out.u64(n)?;
    Ok(())
}

/// Appends the reply to an accepted command, in the room that is there. `count` is how many
/// commands of the authority are accepted.
pub fn accepted_into(out: &mut Vec<u8>, name: &Name, count: u64)
    requires { vec_len out.old + 200 ≤ vec_capacity out.old }
    ensures text { out.new.items ≡ out.old.items ++ accepted_spelling name.now count }
    ensures short { vec_len out.new ≤ vec_len out.old + 200 }
    ensures capacity { vec_capacity out.old ≤ vec_capacity out.new }
{
    let mut digits = itoa::Buffer::new();
    append(out, b"{\"authority\":\"");
    append(out, name.as_bytes());
    append(out, b"\",\"count\":");
    append(out, digits.format(count).as_bytes());
    append(out, b",\"reply\":\"accepted\"}");
}

/// Appends the reply to a publication, in the room that is there.
pub fn published_into(out: &mut Vec<u8>, published: &PublishedReply)
    requires { vec_len out.old + 200 ≤ vec_capacity out.old }
    ensures text { out.new.items ≡ out.old.items ++ published_spelling published.now }
    ensures short { vec_len out.new ≤ vec_len out.old + 200 }
    ensures capacity { vec_capacity out.old ≤ vec_capacity out.new }
{
    append(out, b"{\"moment\":");
    append_number(out, published.moment);
    append(out, b",\"objects\":");
    append_number(out, published.objects);
    append(out, b",\"origins\":");
    append_number(out, published.origins);
    append(out, b",\"reply\":\"published\",\"serial\":");
    append_number(out, published.serial);
    append(out, b"}");
}

/// Appends the reply to `serial`, in the room that is there. It is 0 before the first edition.
pub fn serial_into(out: &mut Vec<u8>, serial: u64)
    requires { vec_len out.old + 200 ≤ vec_capacity out.old }
    ensures text { out.new.items ≡ out.old.items ++ serial_spelling serial }
    ensures short { vec_len out.new ≤ vec_len out.old + 200 }
    ensures capacity { vec_capacity out.old ≤ vec_capacity out.new }
{
    append(out, b"{\"reply\":\"serial\",\"serial\":");
    append_number(out, serial);
    append(out, b"}");
}

/// Appends the reply to `await`, in the room that is there: the serial that was seen.
pub fn reached_into(out: &mut Vec<u8>, serial: u64)
    requires { vec_len out.old + 200 ≤ vec_capacity out.old }
    ensures text { out.new.items ≡ out.old.items ++ reached_spelling serial }
    ensures short { vec_len out.new ≤ vec_len out.old + 200 }
    ensures capacity { vec_capacity out.old ≤ vec_capacity out.new }
{
    append(out, b"{\"reply\":\"reached\",\"serial\":");
    append_number(out, serial);
    append(out, b"}");
}

// Appends a number within the room that is there.
pub(crate) fn append_number(out: &mut Vec<u8>, n: u64)
    requires { vec_len out.old + 20 ≤ vec_capacity out.old }
    ensures items { out.new.items ≡ out.old.items ++ decimal n }
    ensures short { vec_len out.new ≤ vec_len out.old + 20 }
    ensures capacity { vec_capacity out.old ≤ vec_capacity out.new }
{
    let mut digits = itoa::Buffer::new();
    append(out, digits.format(n).as_bytes());
}

// Appends within the room that is there.
pub(crate) fn append(out: &mut Vec<u8>, bytes: &[u8])
    requires { vec_len out.old + length bytes.now ≤ vec_capacity out.old }
    ensures items { out.new.items ≡ out.old.items ++ bytes.now }
    ensures len { vec_len out.new ≡ vec_len out.old + length bytes.now }
    ensures capacity { vec_capacity out.old ≤ vec_capacity out.new }
{
    let _in_the_room = out.extend_from_slice(bytes);
}
