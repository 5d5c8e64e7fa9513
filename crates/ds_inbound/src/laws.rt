//! Laws on answers. These functions do nothing: their contracts are the laws.

ghost use Rattle.ds_inbound.specs.Inbound.{HasOneAnswer};
ghost use Rattle.ds_inbound.specs.Laws.{AnswersSayThemselves, AnswersAreReadAgain};

/// No bytes say two answers.
pub fn one_answer()
    ensures { HasOneAnswer }
{}

/// What a terminal sends says one answer: the one of its picture. It is read again as that.
pub fn answers_say_themselves()
    ensures said { AnswersSayThemselves }
    ensures again { AnswersAreReadAgain }
{}
