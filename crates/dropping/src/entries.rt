// What a list of fault records is made of: plain numbers, four a record, or records.
ghost use Rattle.std.specs.Prelude.{◌≡◌, refl, ◌<◌, ◌%◌, Bool, true, false, not, List, length, get_or, set, eqb};
ghost use Rattle.faults.specs.declared.Fault.{Fault};
ghost use Rattle.faults.specs.Records.{faults_of, no_fault};

use faults::Fault;
use faults::records::record_at;

pub trait Entry: Copy {
    // The whole records of a list, and whether numbers are left over after them.
    ghost records: { List Self → List Fault };

    ghost is_over: { List Self → Bool };

    // How many whole records a list has.
    fn count(list: &[Self]) -> usize
        ensures count { result ≡ length (records list.now) }
        ensures fits { result < usize.MAX };

    // Whether numbers are left over.
    fn is_over(list: &[Self]) -> bool
        ensures { result ≡ is_over list.now };

    // The record after so many others.
    fn read(list: &[Self], ahead: usize) -> Fault
        requires { ahead < length (records list.now) }
        ensures { result ≡ get_or (records list.now) ahead no_fault };

    // Writes the record after so many others.
    fn write(list: &mut [Self], ahead: usize, fault: Fault)
        requires { ahead < length (records list.old) }
        ensures written { records list.new ≡ set (records list.old) ahead fault }
        ensures same_length { length list.new ≡ length list.old };
}

#[tactic(auto, using(faults::proofs::RecordLaws::records_count, crate::proofs::PlainLaws::put_words, crate::proofs::PlainLaws::set_length))]
impl Entry for u32 {
    ghost records = { faults_of };

    ghost is_over = { λ list. not (eqb (length list % 4) 0) };

    fn count(list: &[u32]) -> usize {
        list.len() / 4
    }

    fn is_over(list: &[u32]) -> bool {
        list.len() % 4 != 0
    }

    fn read(list: &[u32], ahead: usize) -> Fault {
        record_at(list, ahead)
    }

    fn write(list: &mut [u32], ahead: usize, fault: Fault) {
        let at = 4 * ahead;
        list[at] = fault.class;
        list[at + 1] = fault.place;
        list[at + 2] = fault.line;
        list[at + 3] = fault.value;
    }
}

impl Entry for Fault {
    ghost records = { λ list. list };

    ghost is_over = { λ list. false };

    fn count(list: &[Fault]) -> usize {
        list.len()
    }

    fn is_over(list: &[Fault]) -> bool {
        false
    }

    fn read(list: &[Fault], ahead: usize) -> Fault {
        list[ahead]
    }

    fn write(list: &mut [Fault], ahead: usize, fault: Fault) {
        list[ahead] = fault;
    }
}
