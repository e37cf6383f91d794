//! Laws of files of records. Each is a function that does nothing: its contract is the law.
ghost use Rattle.std.specs.Prelude.{◌≡◌, ◌++◌, ◌∷◌, [], ◌+◌, ◌-◌, ◌<◌, ◌^◌, ℕ, List, length, take};
ghost use Rattle.records.specs.declared.ending.Ending.{Ending};
ghost use Rattle.records.specs.Files.{IsReadAs, IsUnharmed, IsUndamaged, IsLeft, IsBetween, IsBad, Resumes, whole_in};
ghost use Rattle.records.specs.Spelling.{spell, size_of, file_of, ArePayloads};

use crate::ending::Ending;
use crate::head::HEAD;

/// A record that is spelled at the end of a file makes the file with one payload more.
pub fn a_file_grows_by_records()
    ensures { (salt : ℕ) (payloads : List (List ℕ)) (payload : List ℕ)
        → file_of salt (payloads ++ payload ∷ []) ≡ file_of salt payloads ++ spell salt (length (file_of salt payloads)) payload }
{}

/// What was written is read back, and the file ends after its last record.
pub fn a_file_is_read_back()
    ensures { (salt : ℕ) (payloads read : List (List ℕ)) (ending : Ending)
        → salt < 2 ^ 64 → ArePayloads payloads
        → IsReadAs (file_of salt payloads) read ending
        → (read ≡ payloads) × (ending ≡ Ending.Clean (HEAD + size_of payloads)) }
{}

/// Bytes are read as one list of payloads, with one ending.
pub fn a_file_is_read_in_one_way()
    ensures { (bytes : List ℕ) (read others : List (List ℕ)) (ending other : Ending)
        → IsReadAs bytes read ending → IsReadAs bytes others other
        → (read ≡ others) × (ending ≡ other) }
{}

/// Of a file that is cut at any byte, the records that end before the cut are read, and no others. It is clean or cut. This
/// rests on no sum.
pub fn a_cut_file_is_read_to_the_cut()
    ensures { (salt : ℕ) (payloads : List (List ℕ)) (n : ℕ) (read : List (List ℕ)) (ending : Ending)
        → salt < 2 ^ 64 → ArePayloads payloads
        → IsReadAs (take n (file_of salt payloads)) read ending
        → (read ≡ take (whole_in (n - HEAD) payloads) payloads) × IsUnharmed ending }
{}

/// Of a file that a crash left, all records that were on the disk are read, and some of those written after them. It isn't
/// damaged.
pub fn a_crash_leaves_what_was_synced()
    ensures { (salt : ℕ) (synced written : List (List ℕ)) (left : List ℕ) (read : List (List ℕ)) (ending : Ending)
        → salt < 2 ^ 64 → ArePayloads synced → ArePayloads written
        → IsLeft salt (HEAD + size_of synced) written left
        → IsReadAs (file_of salt synced ++ left) read ending
        → IsBetween read synced written × IsUndamaged ending }
{}

/// A bad record is damage at its place if a whole one follows it, and else a torn end.
pub fn damage_is_told_from_a_torn_end()
    ensures damaged { (salt : ℕ) (payloads : List (List ℕ)) (rest : List ℕ) (read : List (List ℕ)) (ending : Ending)
        → salt < 2 ^ 64 → ArePayloads payloads
        → IsBad salt (HEAD + size_of payloads) rest → Resumes salt (HEAD + size_of payloads) rest
        → IsReadAs (file_of salt payloads ++ rest) read ending
        → (read ≡ payloads) × (ending ≡ Ending.Damaged (HEAD + size_of payloads)) }
    ensures torn { (salt : ℕ) (payloads : List (List ℕ)) (rest : List ℕ) (read : List (List ℕ)) (ending : Ending)
        → salt < 2 ^ 64 → ArePayloads payloads
        → IsBad salt (HEAD + size_of payloads) rest → (Resumes salt (HEAD + size_of payloads) rest → ⊥)
        → IsReadAs (file_of salt payloads ++ rest) read ending
        → (read ≡ payloads) × (ending ≡ Ending.Torn (HEAD + size_of payloads)) }
{}
