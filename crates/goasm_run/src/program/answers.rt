ghost use Rattle.goasm_run.specs.Questions.{HaveOneAnswer};

use amd64_select::Amd64;
use image_rules::{one_refusal, refused_is_unsound};
use text_chain::one_chain;
use text_dis::one_text;
use unit_listing::one_listing;

/// A question that a command asks has one answer.
pub fn one_answer()
    ensures { HaveOneAnswer }
{
    one_listing::<Amd64>();
    one_text::<Amd64>();
    refused_is_unsound::<Amd64>();
    one_refusal::<Amd64>();
    one_chain::<Amd64>();
}
