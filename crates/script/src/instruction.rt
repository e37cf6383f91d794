//! What an operator writes on the command line.
ghost use Rattle.std.specs.Prelude.{◌≡◌, map};
ghost use Rattle.script.specs.Instructions as spec;

use crate::key_prefix::KeyPrefix;
use crate::numbers::{node_of, node_or_any};
use crate::request::{Request, single_word};
use crate::word::Word;
use ballot::NodeId;
use maildrop::Name;
use thiserror::Error;

/// What an operator writes on the command line.
#[derive(Drop)]
pub enum Instruction<'a> {
    /// `deliver NODE USER FILE` or `deliver NODE USER FILE KEY`: how many bytes the file has is still to be seen.
    Deliver {
        node: NodeId,
        user: Name,
        file: Word<'a>,
        key: Option<KeyPrefix>,
    },
    /// `put NODE USER` or `put NODE USER KEY`: how many bytes the message has is still to be seen. NODE 0 is any node
    /// that is up, `None`. The key may be any bytes.
    Put {
        node: Option<NodeId>,
        user: Name,
        key: Option<Word<'a>>,
    },
    /// `break NODE USER`, `crash NODE`, `status`, `sessions`, `stats`, `locks`, `users`, `roll`, `reopen`, `kick USER`, `stop` or
    /// `stop now`.
    Ask(Request),
}

/// Why words are no instruction.
#[derive(Clone, Copy, Debug, PartialEq, Eq, Error)]
pub enum WordsFault {
    /// They have none of the forms, or a node or user that is none.
    #[error("bad value")]
    Value,
    /// The key is none: nothing is asked of the service, whose answer is known.
    #[error("bad request")]
    Key,
}

fn ask_of(request: Option<Request>) -> Result<Instruction<'static>, WordsFault>
    ensures { result ≡ spec.ask_of request }
{
    match request {
        Some(request) => Ok(Instruction::Ask(request)),
        None => Err(WordsFault::Value),
    }
}

/// `crash NODE`, `kick USER` or `stop now`.
fn two_words(word: &[u8], second: &[u8]) -> Option<Request>
    ensures { result ≡ spec.two_words word.now second.now }
{
    if word == b"crash".as_slice() {
        let node = node_of(second)?;
        Some(Request::Crash { node })
    } else if word == b"kick".as_slice() {
        let user = Name::new(second)?;
        Some(Request::Kick { user })
    } else if word == b"stop".as_slice() && second == b"now".as_slice() {
        Some(Request::Stop {
            now: true,
            wait: false,
        })
    } else {
        None
    }
}

fn break_with(word: &[u8], node: &[u8], user: &[u8]) -> Option<Request>
    ensures { result ≡ spec.break_with word.now node.now user.now }
{
    if word != b"break".as_slice() {
        return None;
    }
    let node = node_of(node)?;
    let user = Name::new(user)?;
    Some(Request::Break { node, user })
}

/// `NODE USER` and the word of a key, if there is one.
fn put_with<'a>(
    node: &[u8],
    user: &[u8],
    key: Option<Word<'a>>,
) -> Result<Instruction<'a>, WordsFault>
    ensures { result ≡ spec.put_with node.now user.now key.entry }
{
    let (Some(node), Some(user)) = (node_or_any(node), Name::new(user)) else {
        return Err(WordsFault::Value);
    };
    Ok(Instruction::Put { node, user, key })
}

/// `put NODE USER` or `break NODE USER`.
fn three_words(word: &[u8], node: &[u8], user: &[u8]) -> Result<Instruction<'static>, WordsFault>
    ensures { result ≡ spec.three_words word.now node.now user.now }
{
    if word == b"put".as_slice() {
        put_with(node, user, None)
    } else {
        ask_of(break_with(word, node, user))
    }
}

fn addressee_of(word: &[u8], node: &[u8], user: &[u8]) -> Option<(NodeId, Name)>
    ensures { result ≡ spec.addressee_of word.now node.now user.now }
{
    if word != b"deliver".as_slice() {
        return None;
    }
    let node = node_of(node)?;
    let user = Name::new(user)?;
    Some((node, user))
}

/// `deliver NODE USER FILE`.
fn deliver_with<'a>(
    addressee: Option<(NodeId, Name)>,
    file: &'a [u8],
) -> Result<Instruction<'a>, WordsFault>
    ensures { result ≡ spec.deliver_with addressee file.now }
{
    match addressee {
        None => Err(WordsFault::Value),
        Some((node, user)) => Ok(Instruction::Deliver {
            node,
            user,
            file: Word::new(file),
            key: None,
        }),
    }
}

/// `deliver NODE USER FILE KEY`.
fn keyed_with<'a>(
    addressee: Option<(NodeId, Name)>,
    file: &'a [u8],
    key: &[u8],
) -> Result<Instruction<'a>, WordsFault>
    ensures { result ≡ spec.keyed_with addressee file.now key.now }
{
    let Some((node, user)) = addressee else {
        return Err(WordsFault::Value);
    };
    match KeyPrefix::new(key) {
        None => Err(WordsFault::Key),
        Some(key) => Ok(Instruction::Deliver {
            node,
            user,
            file: Word::new(file),
            key: Some(key),
        }),
    }
}

/// `put NODE USER KEY` or `deliver NODE USER FILE`.
fn four_words<'a>(
    word: &[u8],
    node: &[u8],
    user: &[u8],
    last: &'a [u8],
) -> Result<Instruction<'a>, WordsFault>
    ensures { result ≡ spec.four_words word.now node.now user.now last.now }
{
    if word == b"put".as_slice() {
        put_with(node, user, Some(Word::new(last)))
    } else {
        deliver_with(addressee_of(word, node, user), last)
    }
}

/// The instruction of the words of a command line. A bad node or user is told before a bad key. Takes no memory.
pub fn instruction_of<'a>(words: &[&'a [u8]]) -> Result<Instruction<'a>, WordsFault>
    ensures { result ≡ spec.instruction_of (map (λ word. word.now) words.now) }
{
    match words {
        [word] => ask_of(single_word(word)),
        [word, second] => ask_of(two_words(word, second)),
        [word, node, user] => three_words(word, node, user),
        [word, node, user, last] => four_words(word, node, user, last),
        [word, node, user, file, key] => keyed_with(addressee_of(word, node, user), file, key),
        _ => Err(WordsFault::Value),
    }
}
