// What holds of every cross.
ghost use Rattle.book.specs.CrossLaws.{EveryCross, OnlyCross};
ghost use Rattle.book.specs.Teeth.{Teeth};

// Every cross keeps the laws, under any lawful ranking.
#[tactic(auto, using(crate::proofs::Loops::every_cross))]
pub fn crosses_are_lawful() -> u8
    ensures { EveryCross }
{
    0
}

// The laws leave one run of a board: no other keeps them.
#[tactic(auto, using(crate::proofs::OneRun::only_cross))]
pub fn laws_leave_one_run() -> u8
    ensures { OnlyCross }
{
    0
}

// The laws refuse bad runs.
#[tactic(auto, using(crate::proofs::Biting::teeth))]
pub fn laws_bite() -> u8
    ensures { Teeth }
{
    0
}
