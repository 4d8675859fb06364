// What crosses of each answer: a Result or an enum with values cannot, so its number and its values do. The numbers are
// those of the C interface. specs/Replies.antt has each case.
ghost use Rattle.std.specs.Prelude.{◌≡◌};
ghost use Rattle.lbq.specs.Replies.{of_answer, of_opening, of_check, of_survey};

use line::{Fault, Findings};
use words::{Answer, Refusal, number, refusal_number, value};

// What opening, a step and an order answer: the paper's number of the refusal, or 0 where there is none, and the value.
#[repr(C)]
#[derive(Clone, Copy, Debug, PartialEq, Eq)]
pub struct Reply {
    pub number: u32,
    pub value: u32,
}

// What the check answers: 0 sound, 1 UNFIT, 2 DAMAGED with the place and the rule, which are 0 otherwise.
#[repr(C)]
#[derive(Clone, Copy, Debug, PartialEq, Eq)]
pub struct CheckReply {
    pub number: u32,
    pub place: u32,
    pub rule: u32,
}

// What the survey answers: 0, or 1 UNFIT, or 2 DAMAGED; the mask, how many blocks, and the lowest.
#[repr(C)]
#[derive(Clone, Copy, Debug, PartialEq, Eq)]
pub struct SurveyReply {
    pub mask: u64,
    pub number: u32,
    pub count: u32,
    pub lowest: u32,
}

impl From<Answer> for Reply {
    ghost from_gives = { λ a r. r ≡ of_answer a };

    fn from(a: Answer) -> Reply {
        Reply {
            number: number(a),
            value: value(a),
        }
    }
}

impl From<Result<(), Refusal>> for Reply {
    ghost from_gives = { λ o r. r ≡ of_opening o };

    fn from(opening: Result<(), Refusal>) -> Reply {
        match opening {
            Ok(()) => Reply {
                number: 0,
                value: 0,
            },
            Err(w) => Reply {
                number: refusal_number(w),
                value: 0,
            },
        }
    }
}

impl From<Result<(), Fault>> for CheckReply {
    ghost from_gives = { λ c r. r ≡ of_check c };

    fn from(checked: Result<(), Fault>) -> CheckReply {
        match checked {
            Ok(()) => CheckReply {
                number: 0,
                place: 0,
                rule: 0,
            },
            Err(Fault::Unfit) => CheckReply {
                number: refusal_number(Refusal::Unfit),
                place: 0,
                rule: 0,
            },
            Err(Fault::Broken(place, rule)) => CheckReply {
                number: refusal_number(Refusal::Damaged),
                place,
                rule,
            },
        }
    }
}

impl From<Result<Findings, Refusal>> for SurveyReply {
    ghost from_gives = { λ s r. r ≡ of_survey s };

    fn from(survey: Result<Findings, Refusal>) -> SurveyReply {
        match survey {
            Ok(v) => SurveyReply {
                mask: v.mask,
                number: 0,
                count: v.count,
                lowest: v.lowest,
            },
            Err(w) => SurveyReply {
                mask: 0,
                number: refusal_number(w),
                count: 0,
                lowest: 64,
            },
        }
    }
}
