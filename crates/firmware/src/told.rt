// What the calls answer, in the numbers that C is handed: the refusal's number or 0, and the rest. Each answer has a function of its
// own, as it has a reading of its own in the rules, which says what is handed out where a call refuses.
ghost use Rattle.std.specs.Prelude.{◌≡◌};
ghost use Rattle.layout.specs.Refusal.{code_told};
ghost use Rattle.layout.specs.SetUp.{set_up_told};
ghost use Rattle.collector.specs.Collect.{collect_told};
ghost use Rattle.store.specs.Allot.{allot_told};
ghost use Rattle.store.specs.Fields.{read_told};
ghost use Rattle.store.specs.Survey.{survey_told};
ghost use Rattle.firmware.specs.Lent.{collected_words, figures_words};
ghost use Rattle.firmware.specs.Fits.{CollectedFits, AllottedFits, FiguresFit};

use collector::Collection;
use freelist::Figures;
use layout::{Refusal, State};
use store::NewObject;

// The number of an answer that hands nothing out.
pub(crate) fn code(answer: Result<(), Refusal>) -> u32
    ensures { result ≡ code_told answer }
{
    match answer {
        Ok(()) => 0,
        Err(refusal) => refusal.number(),
    }
}

// The number and the state of a set-up.
pub(crate) fn set_up(answer: Result<State, Refusal>) -> (u32, State)
    ensures code { result.0 ≡ (set_up_told answer).code }
    ensures state { result.1 ≡ (set_up_told answer).state }
{
    match answer {
        Ok(state) => (0, state),
        Err(refusal) => (refusal.number(), State::default()),
    }
}

// The number, the state and the words of a collection.
pub(crate) fn collect(answer: Result<Collection, collector::Refused>) -> (u32, State, [u32; 5])
    requires { CollectedFits (collect_told answer) }
    ensures code { result.0 ≡ (collect_told answer).code }
    ensures state { result.1 ≡ (collect_told answer).state }
    ensures words { result.2 ≡ collected_words (collect_told answer) }
{
    match answer {
        Ok(found) => (
            0,
            found.state,
            [
                0,
                found.objects as u32,
                found.live as u32,
                found.references as u32,
                found.peak as u32,
            ],
        ),
        Err(refused) => (
            refused.fault.refusal.number(),
            refused.state,
            [refused.fault.place as u32, 0, 0, 0, 0],
        ),
    }
}

// The number, the state and the address of an allot.
pub(crate) fn allot(answer: Result<NewObject, store::Refused>) -> (u32, State, u32)
    requires { AllottedFits (allot_told answer) }
    ensures code { result.0 ≡ (allot_told answer).code }
    ensures state { result.1 ≡ (allot_told answer).state }
    ensures address { result.2 ≡ (allot_told answer).address }
{
    match answer {
        Ok(made) => (0, made.state, made.address as u32),
        Err(refused) => (refused.refusal.number(), refused.state, 0),
    }
}

// The number and the value of a read.
pub(crate) fn read(answer: Result<u32, Refusal>) -> (u32, u32)
    ensures code { result.0 ≡ (read_told answer).code }
    ensures value { result.1 ≡ (read_told answer).value }
{
    match answer {
        Ok(value) => (0, value),
        Err(refusal) => (refusal.number(), 0),
    }
}

// The number and the words of a survey.
pub(crate) fn survey(answer: Result<Figures, Refusal>) -> (u32, [u32; 3])
    requires { FiguresFit (survey_told answer).figures }
    ensures code { result.0 ≡ (survey_told answer).code }
    ensures words { result.1 ≡ figures_words (survey_told answer).figures }
{
    match answer {
        Ok(figures) => (
            0,
            [
                figures.listed as u32,
                figures.largest as u32,
                figures.fragment as u32,
            ],
        ),
        Err(refusal) => (refusal.number(), [0, 0, 0]),
    }
}
