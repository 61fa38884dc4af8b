//! The fields of a mail's header, as a list shows them.
ghost use Rattle.std.specs.Prelude.{◌≡◌, ◌≤◌, IfOk, codes, length, map, drop, string_bytes};
ghost use Rattle.std.specs.List.{flat_map, prefix_len, position_or_len};
ghost use Rattle.mr_maildir.specs.Header as specs;
ghost use Rattle.mr_maildir.specs.Header.{field_text, field_value, day_of_date, IsCut};
ghost use Rattle.mr_mail.specs.declared.message.TheConstants.{MAX_FROM_BYTES, MAX_SUBJECT_BYTES};
ghost use Rattle.mr_maildir.specs.declared.header.TheConstants.{MAX_MESSAGE_ID_BYTES};

use jiff::fmt::rfc2822::DateTimeParser;
use mr_mail::{Day, MAX_FROM_BYTES, MAX_SUBJECT_BYTES};
use std::alloc::{AllocError, Global};

/// How many bytes of a mail's file a host reads for its header. What lies behind them is passed over.
pub const HEADER_BYTES: usize = 65_536;

/// The most bytes that are shown of a Message-ID.
pub const MAX_MESSAGE_ID_BYTES: usize = 998;

/// What a list shows of a mail's header. A field that isn't there is empty.
#[derive(Debug, Drop)]
pub struct Header {
    /// The sender, at most 254 bytes.
    pub from: String,
    /// The subject, at most 998 bytes.
    pub subject: String,
    /// The Message-ID with its angle brackets, at most 998 bytes.
    pub message_id: String,
    /// The day that the sender's clock showed; none where the mail has no date, or one that can't be read.
    pub day: Option<Day>,
}

/// The header of a mail's first bytes, whatever bytes they are.
///
/// The header ends before the first empty line. Its lines end in a newline, with or without a return before it. A line
/// that begins with a space or a tab goes on with the field before it, and these breaks are taken out, as of
/// <https://www.rfc-editor.org/rfc/rfc5322#section-2.2.3>. A field's name is read in capitals or not, with the colon
/// right behind it, and the first field of a name counts. Bytes that are no UTF-8 become U+FFFD, white space at the ends
/// of a value goes, and what is too long is cut at whole characters. Words that are encoded as of RFC 2047 stay as they
/// are. A date may have any weekday, and a comment behind it.
///
/// It takes time as the header is long.
pub fn read_header(alloc: Global, mail: &[u8]) -> Result<Header, AllocError>
    ensures from { IfOk result (λ header. IsCut MAX_FROM_BYTES (field_text (codes "from:") mail.now) (string_bytes header.from)) }
    ensures subject { IfOk result (λ header. IsCut MAX_SUBJECT_BYTES (field_text (codes "subject:") mail.now) (string_bytes header.subject)) }
    ensures message_id { IfOk result (λ header. IsCut MAX_MESSAGE_ID_BYTES (field_text (codes "message-id:") mail.now) (string_bytes header.message_id)) }
    ensures day { IfOk result (λ header. header.day ≡ day_of_date (field_value (codes "date:") mail.now)) }
{
    let lines = header_lines(alloc, mail)?;
    let lines = lines.as_slice();
    let date = value(alloc, lines, b"date:")?;
    Ok(Header {
        from: shown_value(alloc, lines, b"from:", MAX_FROM_BYTES)?,
        subject: shown_value(alloc, lines, b"subject:", MAX_SUBJECT_BYTES)?,
        message_id: shown_value(alloc, lines, b"message-id:", MAX_MESSAGE_ID_BYTES)?,
        day: day_of(date.as_slice()),
    })
}

/// The lines of the header.
fn header_lines(alloc: Global, mail: &[u8]) -> Result<Vec<&[u8]>, AllocError>
    ensures { IfOk result (λ lines. map (λ line. line.now) lines.items ≡ specs.header_lines mail.now) }
{
    mail.split(|byte| *byte == b'\n')
        .take_while(|line| !is_end(line))
        .collect(alloc)
}

/// Whether the header ends before this line.
fn is_end(line: &[u8]) -> bool
    ensures { result ≡ specs.is_end line.now }
{
    without_return(line).is_empty()
}

/// Whether the line ends in a return.
fn is_returned(line: &[u8]) -> bool
    ensures { result ≡ specs.is_returned line.now }
{
    !line.is_empty() && line[line.len() - 1] == b'\r'
}

/// The line without the return at its end.
fn without_return(line: &[u8]) -> &[u8]
    ensures { result.now ≡ specs.without_return line.now }
{
    if is_returned(line) {
        &line[..line.len().saturating_sub(1)]
    } else {
        line
    }
}

/// The text of the first field of this key, cut.
fn shown_value(
    alloc: Global,
    lines: &[&[u8]],
    key: &[u8],
    most: usize,
) -> Result<String, AllocError>
    ensures { IfOk result (λ text. IsCut most (specs.text_shown (specs.value_in key.now (map (λ line. line.now) lines.now))) (string_bytes text)) }
{
    let value = value(alloc, lines, key)?;
    cut_text(alloc, value.as_slice(), most)
}

/// The text of these bytes, without white space at its ends, cut.
fn cut_text(alloc: Global, bytes: &[u8], most: usize) -> Result<String, AllocError>
    ensures { IfOk result (λ text. IsCut most (specs.text_shown bytes.now) (string_bytes text)) }
{
    let text = String::from_utf8_lossy(alloc, bytes)?;
    let text = text.as_str().trim();
    String::from_str(alloc, front(text, most))
}

/// The text, cut.
fn front(text: &str, most: usize) -> &str
    ensures { IsCut most text.now result.now }
{
    &text[..text.floor_char_boundary(most)]
}

/// What stands behind the key, of all lines of the first field that has it.
fn value(alloc: Global, lines: &[&[u8]], key: &[u8]) -> Result<Vec<u8>, AllocError>
    ensures { IfOk result (λ value. value.items ≡ specs.value_in key.now (map (λ line. line.now) lines.now)) }
{
    let field = unfolded(alloc, first_field(from_field(lines, key)))?;
    Vec::from_slice(alloc, behind(field.as_slice(), key.len()))
}

/// What is behind so many bytes.
fn behind(bytes: &[u8], count: usize) -> &[u8]
    ensures { result.now ≡ drop count bytes.now }
{
    &bytes[count.min(bytes.len())..]
}

/// The lines from the first field of this key on.
fn from_field<'a, 'b>(lines: &'b [&'a [u8]], key: &[u8]) -> &'b [&'a [u8]]
    ensures { result.now ≡ specs.from_first (λ line. specs.begins key.now line.now) lines.now }
{
    &lines[place(lines, key)..]
}

/// The place of the first field of this key, or how many lines there are.
fn place(lines: &[&[u8]], key: &[u8]) -> usize
    ensures value { result ≡ position_or_len (λ line. specs.begins key.now line.now) lines.now }
    ensures within { result ≤ length lines.now }
{
    match lines.iter().position(|line| begins(line, key)) {
        Some(at) => at,
        None => lines.len(),
    }
}

/// The lines of the field that they begin with.
fn first_field<'a, 'b>(lines: &'b [&'a [u8]]) -> &'b [&'a [u8]]
    ensures { result.now ≡ specs.first_group (λ line. specs.is_folded line.now) lines.now }
{
    if lines.is_empty() {
        return lines;
    }
    let more = &lines[1..];
    &lines[..folded(more) + 1]
}

/// How many lines go on with the field before them.
fn folded(lines: &[&[u8]]) -> usize
    ensures value { result ≡ prefix_len (λ line. specs.is_folded line.now) lines.now }
    ensures within { result ≤ length lines.now }
{
    match lines.iter().position(|line| !is_folded(line)) {
        Some(at) => at,
        None => lines.len(),
    }
}

/// The lines without the breaks between them.
fn unfolded(alloc: Global, lines: &[&[u8]]) -> Result<Vec<u8>, AllocError>
    ensures { IfOk result (λ field. field.items ≡ flat_map (λ line. specs.without_return line.now) lines.now) }
{
    let mut field = Vec::new(alloc);
    for line in lines {
        field.extend_from_slice(without_return(line))?;
    }
    Ok(field)
}

/// Whether the line begins with this key, in capitals or not.
fn begins(line: &[u8], key: &[u8]) -> bool
    ensures { result ≡ specs.begins key.now line.now }
{
    match line.get(..key.len()) {
        Some(front) => key.eq_ignore_ascii_case(front),
        None => false,
    }
}

/// Whether the line goes on with the field before it.
fn is_folded(line: &[u8]) -> bool
    ensures { result ≡ specs.is_folded line.now }
{
    matches!(line, [b' ' | b'\t', ..])
}

/// The day of a date.
fn day_of(date: &[u8]) -> Option<Day>
    ensures { result ≡ day_of_date date.now }
{
    let parser = DateTimeParser::new().relaxed_weekday(true);
    match parser.parse_datetime_offset(date) {
        Ok(((datetime, _), [])) => day_numbered(datetime.date.to_unix_epoch_day()),
        _ => None,
    }
}

/// The day with this number.
fn day_numbered(number: i32) -> Option<Day>
    ensures { result ≡ specs.day_numbered number }
{
    let days = u16::try_from(number).ok()?;
    Some(Day::new(days))
}
