// The theorems that users may rely on, each the contract of a function of its own.
ghost use Rattle.model.specs.PathLaws.{WalksLawful};
ghost use Rattle.model.specs.RunLaws.{InEveryCase, FiledForGood, CitationsEarlier, ExplanationsRead, FiledByQuestions, ShortestFiled, UnjoinedExactly, AnswersTurn, AnswersCompose};
ghost use Rattle.model.specs.WorkedCases.{WorkedCases};

// Walks end, and a path joins its pair, over the nearest common ancestor where there is no circle, turns with its pair and composes.
#[tactic(auto, using(crate::proofs::PathLaws::walks_lawful))]
pub fn walks_lawful() -> u8
    ensures { WalksLawful }
{
    0
}

// The worked cases hold of the definitions, down to what each leaves on file.
#[tactic(auto, using(crate::proofs::WorkedCases::worked_cases))]
pub fn worked_cases_hold() -> u8
    ensures { WorkedCases }
{
    0
}

// No entry and no use list changes after it is filed.
pub fn filed_for_good() -> u8
    ensures { InEveryCase FiledForGood }
{
    0
}

// No entry cites itself or a later one, in itself or in a use list.
#[tactic(auto, using(crate::proofs::RunLaws::citations_earlier))]
pub fn citations_earlier() -> u8
    ensures { InEveryCase CitationsEarlier }
{
    0
}

// Every explanation reads as the path of its own question's pair when it was filed, with its step count and last enode.
#[tactic(auto, using(crate::proofs::RunLaws::explanations_read))]
pub fn explanations_read() -> u8
    ensures { InEveryCase ExplanationsRead }
{
    0
}

// Every entry is filed by a question that was put.
pub fn filed_by_questions() -> u8
    ensures { InEveryCase FiledByQuestions }
{
    0
}

// A question that nothing else refuses is refused by 5 or marked exactly when the walks of its pair share no enode.
#[tactic(auto, using(crate::proofs::RunLaws::unjoined_exactly))]
pub fn unjoined_exactly() -> u8
    ensures { InEveryCase UnjoinedExactly }
{
    0
}

// While no given is accepted and no frame moved, the answer for a pair turned reads as the pair's answer turned, where there is no circle.
#[tactic(auto, using(crate::proofs::RunLaws::answers_turn))]
pub fn answers_turn() -> u8
    ensures { InEveryCase AnswersTurn }
{
    0
}

// While no given is accepted and no frame moved, answers one after the other reduce to the answer for the outer pair, where there is no circle.
#[tactic(auto, using(crate::proofs::RunLaws::answers_compose))]
pub fn answers_compose() -> u8
    ensures { InEveryCase AnswersCompose }
{
    0
}

// A question that files an explanation, nested or not, files one with as few segments as any chain open to it when it was put.
#[tactic(auto, using(crate::proofs::ShortestFiled::shortest_filed))]
pub fn shortest_filed() -> u8
    ensures { InEveryCase ShortestFiled }
{
    0
}
