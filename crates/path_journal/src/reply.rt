//! From a text to the reply that it begins with.

ghost use Rattle.std.specs.Prelude.{◌≡◌, ◌≢◌, ◌++◌, ◌≤◌, ◌^◌, ◌<◌, codes, IfOk, IfSome, OnErr, List, ℕ};
ghost use Rattle.path_model.specs.declared.journal.Reply.{Reply};
ghost use Rattle.path_fields.specs.Splits.{EndsAt};
ghost use Rattle.path_lines.specs.LineTexts.{reply_text};
ghost use Rattle.path_journal.specs.JournalTexts.{ReplyFits};
ghost use Rattle.path_journal.specs.Replies as replies;

use path_fields::strip;
use path_lines::{
    REPLIES, Stop, Wanted, after, end, keyword, last, short_number, spelled, stop_at,
};
use path_model::{ActId, PathId, Reply};

/// The greatest number that a path can have.
const LAST_PATH: u64 = 4_294_967_295;

/// The greatest number that a reply of this kind can have.
fn most(kind: Reply) -> u64
    ensures fits { (n : ℕ) → n ≤ result → ReplyFits (replies.with_number kind n) }
    ensures all { (n : ℕ) → ReplyFits (replies.with_number kind n) → n < 2 ^ 64 → n ≤ result }
{
    match kind {
        Reply::Blocked(_) => LAST_PATH,
        _ => u64::MAX,
    }
}

/// The reply of this kind with this number, if it has one.
fn with_number(kind: Reply, number: u64) -> Reply
    requires { ReplyFits (replies.with_number kind number) }
    ensures { result ≡ replies.with_number kind number }
{
    match kind {
        Reply::Started(_) => Reply::Started(ActId(number)),
        Reply::Blocked(_) => Reply::Blocked(PathId(number as u32)),
        Reply::Used(_) => Reply::Used(number),
        _ => kind,
    }
}

/// A reply of this kind up to the end of the line, and the text from there on.
fn read_as(kind: Reply, text: &[u8]) -> Result<(Reply, &[u8]), Stop>
    ensures ok { IfOk result (λ p. (text.now ≡ reply_text p.0 ++ p.1.now) × ReplyFits p.0 × EndsAt 10 p.1.now) }
    ensures err { OnErr result (replies.IsNone kind text.now) }
{
    let (words, number) = spelled(kind);
    let words = words.as_bytes();
    if number.is_none() {
        let rest = after(text, words, Wanted::Reply)?;
        end(rest)?;
        return Ok((kind, rest));
    }
    let Some(rest) = keyword(text, words) else {
        return Err(stop_at(text, Wanted::Reply));
    };
    let rest = after(rest, b" ", Wanted::Space)?;
    let (number, rest) = last(rest, most(kind), Wanted::ReplyNumber)?;
    Ok((with_number(kind, number), rest))
}

/// The reply up to the end of the line, and the text from the end of the line on; else the furthest stop of those that the kinds of
/// replies come to.
fn read_reply(text: &[u8]) -> Result<(Reply, &[u8]), Stop>
    ensures ok { IfOk result (λ p. (text.now ≡ reply_text p.0 ++ p.1.now) × ReplyFits p.0 × EndsAt 10 p.1.now) }
    ensures err { OnErr result ((r : Reply) (rest : List ℕ) → ReplyFits r → EndsAt 10 rest → text.now ≢ reply_text r ++ rest) }
{
    let mut furthest = stop_at(text, Wanted::Reply);
    for kind in REPLIES {
        match read_as(*kind, text) {
            Ok(read) => return Ok(read),
            Err(stop) if stop.left < furthest.left => furthest = stop,
            Err(_) => {}
        }
    }
    Err(furthest)
}

/// The reply after a colon and a space, up to the end of the line, and the text from there on; else where the line stops being that.
pub fn read_told(text: &[u8]) -> Result<(Reply, &[u8]), Stop>
    ensures ok { IfOk result (λ p. (text.now ≡ codes ": " ++ (reply_text p.0 ++ p.1.now)) × ReplyFits p.0 × EndsAt 10 p.1.now) }
    ensures err { OnErr result ((r : Reply) (rest : List ℕ)
        → ReplyFits r → EndsAt 10 rest → text.now ≢ codes ": " ++ (reply_text r ++ rest)) }
{
    let rest = after(text, b": ", Wanted::Colon)?;
    read_reply(rest)
}

/// One of the replies that most attempts get, with a short number, after a colon and a space; and what follows.
#[inline(always)]
pub fn usual_told(text: &[u8]) -> Option<(Reply, &[u8])>
    ensures text { IfSome result (λ p. text.now ≡ codes ": " ++ (reply_text p.0 ++ p.1.now)) }
    ensures fits { IfSome result (λ p. ReplyFits p.0) }
{
    let text = strip(text, b": ")?;
    if let Some(rest) = strip(text, b"finished") {
        return Some((Reply::Finished, rest));
    }
    if let Some(rest) = strip(text, b"started") {
        let (number, rest) = short_number(strip(rest, b" ")?)?;
        return Some((Reply::Started(ActId(number)), rest));
    }
    let rest = strip(text, b"used")?;
    let (number, rest) = short_number(strip(rest, b" ")?)?;
    Some((Reply::Used(number), rest))
}
