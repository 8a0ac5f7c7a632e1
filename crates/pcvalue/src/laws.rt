ghost use Rattle.pcvalue.specs.Cover.{HasOneList, AnswersPlaces};

/// The values of stretches are settled: a table has one list of them, and a look-up at a place of a stretch answers the
/// stretch's value.
#[tactic(auto, using(crate::proofs::CoverLemmas::one_list))]
pub fn values_are_settled()
    ensures one { HasOneList }
    ensures places { AnswersPlaces }
{}
