//! The messages that are in a maildrop before its session.
ghost use Rattle.std.specs.Prelude.{◌≡◌, ◌+◌, ◌⊎◌, true, false, [], ◌∷◌, length, None, Ok, Err, IfOk, OnOk, IfErr, IsErrOf};
ghost use Rattle.mboxrd.specs.Mailbox.{read_of};
ghost use Rattle.mboxrd.specs.declared.error.MboxError.TheVariants.{NoFromLine};
ghost use Rattle.maildrop.specs.Office.{maildrop_of, maildrop_after};
ghost use Rattle.maildrop.specs.declared.op.Op.TheVariants.{Mail};
ghost use Rattle.server.specs.Lone.{mails_from, is_stored, are_stored};
ghost use Rattle.server.specs.Served.{users_after_all};
ghost use Rattle.server.specs.Tickets.{ticket_of};
ghost use Rattle.server.specs.Options.{texts_of as texts_in_options};

use crate::fault::Fault;
use crate::lone_desk::LoneDesk;
use crate::options::LoneOptions;
use maildrop::{Name, Op, Outcome, Text};
use mboxrd::{MboxError, Reader};
use std::alloc::Global;

/// How many bytes of a mailbox file are read at a time.
const PIECE: usize = 4096;

/// The texts of a mailbox file, which is read piece by piece.
fn texts_in(alloc: Global, file: &[u8]) -> Result<Vec<Text>, MboxError>
    ensures texts { IfOk result (λ texts. read_of file.now ≡ Ok texts.items) }
    ensures refused { IsErrOf result MboxError.NoFromLine → read_of file.now ≡ Err NoFromLine }
{
    let mut reader = Reader::new(alloc);
    let mut rest = file;
    while !rest.is_empty() {
        let (piece, behind) = rest.split_at(rest.len().min(PIECE));
        if let Err(error) = reader.feed(piece) {
            return Err(error);
        }
        rest = behind;
    }
    reader.finish()
}

/// The texts of the mailbox file that the options name, if they name one.
pub(crate) fn texts_of(alloc: Global, options: &LoneOptions<'_>) -> Result<Vec<Text>, Fault>
    ensures texts { IfOk result (λ texts. texts_in_options options.now ≡ Ok texts.items) }
    ensures refused { IsErrOf result Fault.Mailbox → texts_in_options options.now ≡ Err NoFromLine }
    ensures fault { IfErr result (λ fault. (fault ≡ Fault.Mailbox) ⊎ (fault ≡ Fault.Memory)) }
{
    let Some(mbox) = options.mbox else {
        return Ok(Vec::new(alloc));
    };
    match texts_in(alloc, mbox) {
        Ok(texts) => Ok(texts),
        Err(MboxError::NoFromLine) => Err(Fault::Mailbox),
        Err(MboxError::Memory) => Err(Fault::Memory),
    }
}

/// Has a message stored.
fn store(desk: &mut LoneDesk, user: Name, text: &Text) -> Result<(), Fault>
    ensures stored { OnOk result (are_stored (maildrop_of user desk.old.office) (mails_from desk.old.next user (text.now ∷ [])) ≡ true) }
    ensures office { OnOk result (desk.new.office ≡ users_after_all desk.old.office (mails_from desk.old.next user (text.now ∷ []))) }
    ensures own { OnOk result (maildrop_of user desk.new.office
        ≡ maildrop_after (maildrop_of user desk.old.office) (record { user = user; ticket = ticket_of desk.old.next; op = Mail text.now None })) }
    ensures next { OnOk result (desk.new.next ≡ desk.old.next + 1) }
    ensures refused { IsErrOf result Fault.Mail → are_stored (maildrop_of user desk.old.office) (mails_from desk.old.next user (text.now ∷ [])) ≡ false }
    ensures fault { IfErr result (λ fault. (fault ≡ Fault.Mail) ⊎ (fault ≡ Fault.Memory)) }
{
    let Ok(copy) = text.copy() else {
        return Err(Fault::Memory);
    };
    match desk.perform(
        user,
        Op::Mail {
            text: copy,
            key: None,
        },
    ) {
        Some((_, outcome)) => outcome_of(&outcome),
        None => Err(Fault::Memory),
    }
}

fn outcome_of(outcome: &Outcome) -> Result<(), Fault>
    ensures stored { OnOk result (is_stored outcome.now ≡ true) }
    ensures refused { IfErr result (λ fault. (fault ≡ Fault.Mail) × (is_stored outcome.now ≡ false)) }
{
    match outcome {
        Outcome::Stored(_) => Ok(()),
        _ => Err(Fault::Mail),
    }
}

/// Has the texts stored in order, up to the first that isn't.
pub(crate) fn deliver(desk: &mut LoneDesk, user: Name, texts: &[Text]) -> Result<(), Fault>
    ensures stored { OnOk result (are_stored (maildrop_of user desk.old.office) (mails_from desk.old.next user texts.now) ≡ true) }
    ensures office { OnOk result (desk.new.office ≡ users_after_all desk.old.office (mails_from desk.old.next user texts.now)) }
    ensures next { OnOk result (desk.new.next ≡ desk.old.next + length texts.now) }
    ensures refused { IsErrOf result Fault.Mail → are_stored (maildrop_of user desk.old.office) (mails_from desk.old.next user texts.now) ≡ false }
    ensures fault { IfErr result (λ fault. (fault ≡ Fault.Mail) ⊎ (fault ≡ Fault.Memory)) }
{
    let mut rest = texts;
    while let Some((text, behind)) = rest.split_first() {
        store(desk, user, text)?;
        rest = behind;
    }
    Ok(())
}
