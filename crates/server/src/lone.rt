//! One session over one user's maildrop, from a reader to a writer.
ghost use Rattle.std.specs.Prelude.{◌≡◌, ◌≢◌, ℕ, false, List, ◌∷◌, [], Ok, Err, IsOk, IfOk, IfSome, OnOk, IfErr, IsErrOf, ◌↔◌, ◌⊎◌};
ghost use Rattle.std.specs.declared.alloc.Global.{Global};
ghost use Rattle.std.specs.Io.KnownBytes.{Appends};
ghost use Rattle.mboxrd.specs.declared.error.MboxError.TheVariants.{NoFromLine};
ghost use Rattle.server.specs.Lone.{AreStored, AreGood, IsFirstFault, IsStatusOf, IsLoneSession};
ghost use Rattle.server.specs.Served.{IsSessionOf, IsMailed, IsOfRun, IsEndBy, IsCutBy, IsUnserved};
ghost use Rattle.server.specs.Options as spec;

use crate::fault::Fault;
use crate::lone_desk::LoneDesk;
use crate::mail::{deliver, texts_of};
use crate::options::{LONE_IDS, LONE_MESSAGES, LONE_OCTETS, LoneOptions};
use apop::{Accounts, Method, Stamp, stamp};
use maildrop::{Limits, Name};
use session::{End, OpenGate, serve};
use std::alloc::Global;
use std::io::{Read, Write};

/// The account that the options name, with the user's name.
fn account_of(alloc: Global, options: &LoneOptions<'_>) -> Result<(Name, Accounts), Fault>
    ensures user { IfOk result (λ account. account.0 ≡ options.now.user.now) }
    ensures account { IfOk result (λ account. account.1 ≡ spec.account_of options.now ∷ []) }
    ensures valid { OnOk result (spec.IsAccount options.now) }
    ensures fault { IsErrOf result Fault.Account ↔ ¬ spec.IsAccount options.now }
    ensures only { IfErr result (λ fault. (fault ≡ Fault.Account) ⊎ (fault ≡ Fault.Memory)) }
{
    let Some(name) = Name::new(options.user) else {
        return Err(Fault::Account);
    };
    let Some(method) = Method::from_word(options.method) else {
        return Err(Fault::Account);
    };
    match Accounts::single(alloc, name, method, options.secret) {
        Ok(Some(accounts)) => Ok((name, accounts)),
        Ok(None) => Err(Fault::Account),
        Err(_) => Err(Fault::Memory),
    }
}

/// What the end of a session means for the run.
fn ended(end: End) -> Result<(), Fault>
    ensures over { IsOk result ↔ ((end ≡ End.Closed) ⊎ (end ≡ End.HungUp)) }
    ensures read { IsErrOf result Fault.Read ↔ (end ≡ End.ReadFault) }
    ensures write { IsErrOf result Fault.Write ↔ (end ≡ End.WriteFault) }
    ensures fault { IfErr result (λ fault. IsOfRun fault) }
    ensures cut { IfErr result (λ fault. IsEndBy fault end) }
{
    match end {
        End::Closed | End::HungUp => Ok(()),
        End::ReadFault => Err(Fault::Read),
        End::WriteFault => Err(Fault::Write),
        // The desk of a lone session stops only for want of memory.
        End::DeskStopped | End::Memory => Err(Fault::Memory),
    }
}

/// Serves a session over a desk.
fn serve_desk<R: Read, W: Write>(
    alloc: Global,
    reader: &mut R,
    writer: &mut W,
    accounts: &Accounts,
    stamp: Stamp,
    desk: &mut LoneDesk,
) -> Result<(), Fault>
    ensures written { OnOk result (IfSome (R.remaining reader.old) (λ input. (written : List ℕ)
        × IsSessionOf {A = Global} accounts.now stamp desk.old.next desk.old.office input written
        × Appends (W.contents writer.old) (W.contents writer.new) written)) }
    ensures fault { IfErr result (λ fault. IsOfRun fault) }
    ensures cut { IfErr result (λ fault. IsCutBy accounts.now stamp fault
        (R.remaining reader.old) (R.remaining reader.new) (W.contents writer.old) (W.contents writer.new)) }
{
    let transcript = serve(alloc, reader, writer, accounts, stamp, desk, &mut OpenGate);
    ended(transcript.end)
}

/// The desk of the options' user, whose maildrop holds the messages of the mailbox file.
fn desk_of(alloc: Global, user: Name, options: &LoneOptions<'_>) -> Result<LoneDesk, Fault>
    requires { user ≡ options.now.user.now }
    ensures desk { IfOk result (λ desk. IsMailed user options.now desk) }
    ensures mailbox { IsErrOf result Fault.Mailbox → spec.texts_of options.now ≡ Err NoFromLine }
    ensures mail { IsErrOf result Fault.Mail → (texts : List (List (List ℕ))) × AreStored Global false options.now texts }
    ensures fault { IfErr result (λ fault. (fault ≡ Fault.Mailbox) ⊎ (fault ≡ Fault.Mail) ⊎ (fault ≡ Fault.Memory)) }
{
    let texts = texts_of(alloc, options)?;
    let limits = Limits::new(LONE_MESSAGES, LONE_OCTETS, LONE_IDS).unwrap();
    let Ok(mut desk) = LoneDesk::new(alloc, user, limits) else {
        return Err(Fault::Memory);
    };
    deliver(&mut desk, user, texts.as_slice())?;
    Ok(desk)
}

/// Serves the session that the options describe.
fn run<R: Read, W: Write>(
    alloc: Global,
    reader: &mut R,
    writer: &mut W,
    options: &LoneOptions<'_>,
) -> Result<(), Fault>
    ensures written { OnOk result (IfSome (R.remaining reader.old) (λ input. (written : List ℕ)
        × IsLoneSession Global options.now input written
        × Appends (W.contents writer.old) (W.contents writer.new) written)) }
    ensures good { OnOk result (AreGood Global options.now) }
    ensures account { IsErrOf result Fault.Account ↔ ¬ spec.IsAccount options.now }
    ensures fault { IfErr result (λ fault. IsFirstFault Global options.now fault ⊎ (fault ≡ Fault.Memory) ⊎ (AreGood Global options.now × IsOfRun fault)) }
    ensures untouched { IfErr result (λ fault. (fault ≢ Fault.Read) × (fault ≢ Fault.Write) × (fault ≢ Fault.Memory) → writer.new ≡ writer.old) }
    ensures cut { IfErr result (λ fault. IsUnserved fault writer.old writer.new
        ⊎ IsCutBy (spec.account_of options.now ∷ []) (spec.stamp_of options.now) fault
        (R.remaining reader.old) (R.remaining reader.new) (W.contents writer.old) (W.contents writer.new)) }
{
    let (user, accounts) = account_of(alloc, options)?;
    let Some(stamp) = stamp(options.nonce, options.host) else {
        return Err(Fault::Value);
    };
    let mut desk = desk_of(alloc, user, options)?;
    serve_desk(alloc, reader, writer, &accounts, stamp, &mut desk)
}

/// Serves one POP3 session (RFC 1939) over the maildrop of one user, which holds the messages of the mailbox file, from
/// a reader to a writer, and answers each line as it comes. The writer is flushed before more is read and at the end, so
/// one that gathers what it takes sends the replies to lines that came together in one piece. Returns the exit status: 0 at
/// the end of the session or of the input, 1 after a fault of memory, reading or writing, 2 for options that are none, 3
/// if the maildrop refuses a message of the file. A fault is reported on standard error; after 2 and 3 nothing was written.
pub fn lone_run<H: AllocGlobal + Eprint, R: Read, W: Write>(
    rt: &H,
    reader: &mut R,
    writer: &mut W,
    options: &LoneOptions<'_>,
) -> u8
    ensures written { result ≡ 0 → IfSome (R.remaining reader.old) (λ input. (written : List ℕ)
        × IsLoneSession Global options.now input written
        × Appends (W.contents writer.old) (W.contents writer.new) written) }

    // Only a fault of the run itself has another status than the options bring.
    ensures status { (result ≡ 1) ⊎ IsStatusOf Global options.now result }
    ensures refused { (¬ spec.IsAccount options.now) → result ≡ 2 }
    ensures untouched { (result ≡ 2) ⊎ (result ≡ 3) → writer.new ≡ writer.old }
{
    match run(rt.alloc(), reader, writer, options) {
        Ok(()) => 0,
        Err(fault) => {
            let _ = eprintln!(rt; "maildropd: {fault}");
            fault.status()
        }
    }
}
