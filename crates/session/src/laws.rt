// What holds of every story.
ghost use Rattle.session.specs.StoryLaws.{EveryHistory, EveryStory};
ghost use Rattle.session.specs.StoryTeeth.{StoryTeeth};

// Every story keeps the laws, under any lawful sheet and any lawful ranking.
pub fn stories_are_lawful() -> u8
    ensures { EveryStory }
{
    0
}

// A history in which each event tells its own sheet and ranking keeps what does not hang on them,
// and each event keeps the laws of its own.
#[tactic(auto, using(crate::proofs::StoriesKeep::every_history))]
pub fn histories_are_lawful() -> u8
    ensures { EveryHistory }
{
    0
}

// The laws are false of what worthless engines would give.
#[tactic(auto, using(crate::proofs::StoriesBite::story_teeth))]
pub fn laws_bite() -> u8
    ensures { StoryTeeth }
{
    0
}
