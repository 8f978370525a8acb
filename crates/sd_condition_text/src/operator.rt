//! Operators, as text.

ghost use Rattle.std.specs.Prelude.{◌≡◌};
ghost use Rattle.sd_condition_text.specs.Operator.{form, word};

use sd_condition::Operator;

/// How the word of an operator stands to its operands ([MS-DTYP] 2.5.1.1).
#[derive(Clone, Copy, Debug, PartialEq, Eq)]
pub(crate) enum Form {
    /// Between an attribute and what it is compared with.
    Between,
    /// Before an attribute or SIDs.
    Before,
    /// Between two conditions.
    Joining,
    /// Before a condition.
    Negating,
}

impl Form {
    /// The form of an operator.
    pub(crate) fn of(operator: Operator) -> Form
        ensures { result ≡ form operator }
    {
        match operator {
            Operator::Equal => Form::Between,
            Operator::NotEqual => Form::Between,
            Operator::Less => Form::Between,
            Operator::LessOrEqual => Form::Between,
            Operator::Greater => Form::Between,
            Operator::GreaterOrEqual => Form::Between,
            Operator::Contains => Form::Between,
            Operator::Exists => Form::Before,
            Operator::AnyOf => Form::Between,
            Operator::MemberOf => Form::Before,
            Operator::DeviceMemberOf => Form::Before,
            Operator::MemberOfAny => Form::Before,
            Operator::DeviceMemberOfAny => Form::Before,
            Operator::NotExists => Form::Before,
            Operator::NotContains => Form::Between,
            Operator::NotAnyOf => Form::Between,
            Operator::NotMemberOf => Form::Before,
            Operator::NotDeviceMemberOf => Form::Before,
            Operator::NotMemberOfAny => Form::Before,
            Operator::NotDeviceMemberOfAny => Form::Before,
            Operator::And => Form::Joining,
            Operator::Or => Form::Joining,
            Operator::Not => Form::Negating,
        }
    }
}

/// The word of an operator ([MS-DTYP] 2.5.1.1).
pub(crate) fn word(operator: Operator) -> &'static str
    ensures { result.now ≡ word operator }
{
    match operator {
        Operator::Equal => "==",
        Operator::NotEqual => "!=",
        Operator::Less => "<",
        Operator::LessOrEqual => "<=",
        Operator::Greater => ">",
        Operator::GreaterOrEqual => ">=",
        Operator::Contains => "Contains",
        Operator::Exists => "Exists",
        Operator::AnyOf => "Any_of",
        Operator::MemberOf => "Member_of",
        Operator::DeviceMemberOf => "Device_Member_of",
        Operator::MemberOfAny => "Member_of_any",
        Operator::DeviceMemberOfAny => "Device_Member_of_Any",
        Operator::NotExists => "Not_Exists",
        Operator::NotContains => "Not_Contains",
        Operator::NotAnyOf => "Not_Any_of",
        Operator::NotMemberOf => "Not_Member_of",
        Operator::NotDeviceMemberOf => "Not_Device_Member_of",
        Operator::NotMemberOfAny => "Not_Member_of_Any",
        Operator::NotDeviceMemberOfAny => "Not_Device_Member_of_Any",
        Operator::And => "&&",
        Operator::Or => "||",
        Operator::Not => "!",
    }
}
