//! The statuses of the answers to the problems of files, and the greatest of them.
ghost use Rattle.std.specs.Prelude.{List, map, string_bytes, ℕ};
ghost use Rattle.ps_ask.specs.declared.status.Status.{Status};
ghost use Rattle.psat_ask.specs.Statuses.{AnswersAll, files_read};

use ps_ask::Status;

/// What answers problems.
pub trait Answering {
    /// From the first state, the answer to the problem of the file has this status and leaves the
    /// second state.
    ghost answers: { Self → List ℕ → Status → Self → Type 0 };

    /// Answers the problem of a file; `-` is standard input.
    fn answer(&mut self, file: &str) -> Status
        ensures { answers self.old file.now result self.new };
}

// Answers the problem of each file in turn, up to one whose answer couldn't be written: the greatest
// number of their statuses.
#[tactic(auto, using(crate::proofs::StatusLaws::so_far_none, crate::proofs::StatusLaws::so_far_one, crate::proofs::StatusLaws::stopped, crate::proofs::StatusLaws::whole))]
fn answer_each<A: Answering>(answering: &mut A, files: &[String]) -> u8
    ensures { AnswersAll A.answers (map string_bytes files.now) answering.old answering.new result }
{
    let mut greatest = 0;
    for file in files {
        let status = answering.answer(file.as_str());
        greatest = greatest.max(status.number());
        if status == Status::WriteFault {
            return greatest;
        }
    }
    greatest
}

/// Answers the problem of each file in turn, and without files that of standard input: the number
/// with which the program exits, the greatest of their statuses. Where standard output fails nothing
/// more is answered.
#[tactic(auto, using(crate::proofs::StatusLaws::of_none, crate::proofs::StatusLaws::of_some))]
pub fn answer_all<A: Answering>(answering: &mut A, files: &[String]) -> u8
    ensures { AnswersAll A.answers (files_read files.now) answering.old answering.new result }
{
    if files.is_empty() {
        return answering.answer("-").number();
    }
    answer_each(answering, files)
}
