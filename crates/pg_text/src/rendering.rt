// Replies as lines.
ghost use Rattle.std.specs.Prelude.{◌≡◌, ◌++◌, ◌∷◌, [], IfOk, OnOk, codes};
ghost use Rattle.std.specs.Fmt.{decimal, signed_decimal};
ghost use Rattle.pg_text.specs.Replies.{body_text, dup_text, hex_text, message_text, mode_text, reply_line, reply_text, stat_text};
ghost use Rattle.pg_text.specs.Texts.{doubled, id_text, properties_text, property_text, value_text};

use pg_bytes::{Octets, put_bytes, put_u8};
use pg_msg::{Body, Message, MessageId, Property, Refusal, Reply, Value};
use std::alloc::{AllocError, Global};

/// The line of a reply, with its line end, as `docs/FORMATS.md` gives it. Fails only where there is no memory.
pub fn render(alloc: Global, reply: &Reply) -> Result<Octets, AllocError>
    ensures { IfOk result (λ bytes. bytes ≡ reply_line reply.now) }
{
    let mut line = Octets::new(alloc);
    put_reply(alloc, &mut line, reply)?;
    put_u8(&mut line, b'\n')?;
    Ok(line)
}

fn put_reply(alloc: Global, out: &mut Octets, reply: &Reply) -> Result<(), AllocError>
    ensures { OnOk result (out.new ≡ out.old ++ reply_text reply.now) }
{
    match reply {
        Reply::Done => put_bytes(out, b"ok"),
        Reply::Sent(id) => {
            put_bytes(out, b"sent ")?;
            put_id(alloc, out, *id)
        }
        Reply::Unrouted => put_bytes(out, b"unrouted"),
        Reply::Given(message) => put_message(alloc, out, message),
        Reply::Empty => put_bytes(out, b"empty"),
        Reply::Bytes(octets) => put_hex(alloc, out, b"bytes ", octets),
        Reply::Removed(page) => put_number(alloc, out, b"removed ", *page),
        Reply::First(page) => put_number(alloc, out, b"first ", *page),
        Reply::Nothing => put_bytes(out, b"nothing"),
        Reply::Stat {
            paging,
            resident,
            loaded,
            pages,
            first,
        } => put_stat(alloc, out, *paging, *resident, *loaded, *pages, *first),
        Reply::Count(count) => put_number(alloc, out, b"count ", *count),
        Reply::No(refusal) => put_refusal(alloc, out, *refusal),
    }
}

fn put_refusal(alloc: Global, out: &mut Octets, refusal: Refusal) -> Result<(), AllocError>
    ensures { OnOk result (out.new ≡ out.old ++ reply_text (Reply.No refusal)) }
{
    match refusal {
        Refusal::Line => put_bytes(out, b"no line"),
        Refusal::Name => put_bytes(out, b"no name"),
        Refusal::Room => put_bytes(out, b"no room"),
        Refusal::Address => put_bytes(out, b"no address"),
        Refusal::Queue => put_bytes(out, b"no queue"),
        Refusal::Filter(at) => put_number(alloc, out, b"no filter ", at),
        Refusal::ConsumerOpen => put_bytes(out, b"no consumer-open"),
        Refusal::Tx => put_bytes(out, b"no tx"),
        Refusal::TxFailed => put_bytes(out, b"no failed"),
        Refusal::Size => put_bytes(out, b"no size"),
        Refusal::Duplicate => put_bytes(out, b"no duplicate"),
        Refusal::Ids => put_bytes(out, b"no ids"),
        Refusal::Consumer => put_bytes(out, b"no consumer"),
        Refusal::Delivery => put_bytes(out, b"no delivery"),
        Refusal::Large => put_bytes(out, b"no large"),
        Refusal::Range => put_bytes(out, b"no range"),
    }
}

// How an address stands.
fn put_stat(
    alloc: Global,
    out: &mut Octets,
    paging: bool,
    resident: u64,
    loaded: u64,
    pages: u64,
    first: u64,
) -> Result<(), AllocError>
    ensures { OnOk result (out.new ≡ out.old ++ stat_text paging resident loaded pages first) }
{
    put_bytes(out, b"stat ")?;
    put_bytes(out, mode(paging))?;
    put_number(alloc, out, b" resident ", resident)?;
    put_number(alloc, out, b" loaded ", loaded)?;
    put_number(alloc, out, b" pages ", pages)?;
    put_number(alloc, out, b" first ", first)
}

fn mode(paging: bool) -> &'static [u8]
    ensures { result.now ≡ mode_text paging }
{
    if paging { b"paging" } else { b"normal" }
}

fn put_message(alloc: Global, out: &mut Octets, message: &Message) -> Result<(), AllocError>
    ensures { OnOk result (out.new ≡ out.old ++ message_text message.now) }
{
    put_bytes(out, b"msg ")?;
    put_id(alloc, out, message.id)?;
    put_dup(alloc, out, &message.dup)?;
    put_properties(alloc, out, message.properties.as_slice())?;
    put_body(alloc, out, &message.body)
}

fn put_dup(alloc: Global, out: &mut Octets, dup: &Option<Octets>) -> Result<(), AllocError>
    ensures { OnOk result (out.new ≡ out.old ++ dup_text dup.now) }
{
    match dup {
        Some(id) => put_hex(alloc, out, b" id ", id),
        None => Ok(()),
    }
}

fn put_body(alloc: Global, out: &mut Octets, body: &Body) -> Result<(), AllocError>
    ensures { OnOk result (out.new ≡ out.old ++ body_text body.now) }
{
    match body {
        Body::Plain(bytes) => put_hex(alloc, out, b" hex ", bytes),
        Body::Large(size) => put_number(alloc, out, b" large ", *size),
    }
}

fn put_properties(
    alloc: Global,
    out: &mut Octets,
    properties: &[Property],
) -> Result<(), AllocError>
    ensures { OnOk result (out.new ≡ out.old ++ properties_text properties.now) }
{
    for property in properties {
        put_property(alloc, out, property)?;
    }
    Ok(())
}

fn put_property(alloc: Global, out: &mut Octets, property: &Property) -> Result<(), AllocError>
    ensures { OnOk result (out.new ≡ out.old ++ property_text property.now) }
{
    put_bytes(out, b" prop ")?;
    put_bytes(out, property.name.as_str().as_bytes())?;
    put_u8(out, b' ')?;
    put_value(alloc, out, &property.value)
}

fn put_value(alloc: Global, out: &mut Octets, value: &Value) -> Result<(), AllocError>
    ensures { OnOk result (out.new ≡ out.old ++ value_text value.now) }
{
    match value {
        Value::Text(text) => {
            put_u8(out, b'\'')?;
            put_doubled(out, text.as_str().as_bytes())?;
            put_u8(out, b'\'')
        }
        Value::Whole(number) => put_whole(alloc, out, *number),
        Value::Truth(true) => put_bytes(out, b"TRUE"),
        Value::Truth(false) => put_bytes(out, b"FALSE"),
    }
}

// Each quote is written twice.
fn put_doubled(out: &mut Octets, text: &[u8]) -> Result<(), AllocError>
    ensures { OnOk result (out.new ≡ out.old ++ doubled text.now) }
{
    for byte in text {
        put_text_byte(out, *byte)?;
    }
    Ok(())
}

fn put_text_byte(out: &mut Octets, byte: u8) -> Result<(), AllocError>
    ensures { OnOk result (out.new ≡ out.old ++ doubled (byte ∷ [])) }
{
    if byte == b'\'' {
        return put_bytes(out, b"''");
    }
    put_u8(out, byte)
}

fn put_whole(alloc: Global, out: &mut Octets, number: i64) -> Result<(), AllocError>
    ensures { OnOk result (out.new ≡ out.old ++ signed_decimal number) }
{
    let digits = format!(in alloc; "{number}")?;
    put_bytes(out, digits.as_bytes())
}

// The epoch and the number.
fn put_id(alloc: Global, out: &mut Octets, id: MessageId) -> Result<(), AllocError>
    ensures { OnOk result (out.new ≡ out.old ++ id_text id) }
{
    let text = format!(in alloc; "{}-{}", id.epoch, id.number)?;
    put_bytes(out, text.as_bytes())
}

// The words, and the number behind them.
fn put_number(alloc: Global, out: &mut Octets, words: &[u8], number: u64) -> Result<(), AllocError>
    ensures { OnOk result (out.new ≡ out.old ++ (words.now ++ decimal number)) }
{
    put_bytes(out, words)?;
    let digits = format!(in alloc; "{number}")?;
    put_bytes(out, digits.as_bytes())
}

// The words, and the digits of the bytes behind them.
fn put_hex(alloc: Global, out: &mut Octets, words: &[u8], bytes: &Octets) -> Result<(), AllocError>
    ensures { OnOk result (out.new ≡ out.old ++ (words.now ++ hex_text bytes.now)) }
{
    put_bytes(out, words)?;
    if bytes.is_empty() {
        return put_u8(out, b'-');
    }
    let digits = hex::encode(alloc, bytes.as_slice())?;
    put_bytes(out, digits.as_bytes())
}
