//! Operators.

ghost use Rattle.std.specs.Prelude.{◌≡◌};
ghost use Rattle.sd_condition.specs.Stack.{taken_by};
ghost use Rattle.sd_condition.specs.Table.{operator_byte, operator_read};

/// An operator of a condition, which follows its operands in the postfix order ([MS-DTYP] 2.4.4.17.6, 2.4.4.17.7).
#[derive(Clone, Copy, Debug, PartialEq, Eq)]
pub enum Operator {
    /// `==`
    Equal,
    /// `!=`
    NotEqual,
    /// `<`
    Less,
    /// `<=`
    LessOrEqual,
    /// `>`
    Greater,
    /// `>=`
    GreaterOrEqual,
    /// `Contains`
    Contains,
    /// `Exists`
    Exists,
    /// `Any_of`
    AnyOf,
    /// `Member_of`
    MemberOf,
    /// `Device_Member_of`
    DeviceMemberOf,
    /// `Member_of_Any`
    MemberOfAny,
    /// `Device_Member_of_Any`
    DeviceMemberOfAny,
    /// `Not_Exists`
    NotExists,
    /// `Not_Contains`
    NotContains,
    /// `Not_Any_of`
    NotAnyOf,
    /// `Not_Member_of`
    NotMemberOf,
    /// `Not_Device_Member_of`
    NotDeviceMemberOf,
    /// `Not_Member_of_Any`
    NotMemberOfAny,
    /// `Not_Device_Member_of_Any`
    NotDeviceMemberOfAny,
    /// `&&`
    And,
    /// `||`
    Or,
    /// `!`
    Not,
}

impl Operator {
    /// The operator's byte ([MS-DTYP] 2.4.4.17.6, 2.4.4.17.7).
    pub(crate) fn byte(self) -> u8
        ensures { result ≡ operator_byte self }
    {
        match self {
            Operator::Equal => 0x80,
            Operator::NotEqual => 0x81,
            Operator::Less => 0x82,
            Operator::LessOrEqual => 0x83,
            Operator::Greater => 0x84,
            Operator::GreaterOrEqual => 0x85,
            Operator::Contains => 0x86,
            Operator::Exists => 0x87,
            Operator::AnyOf => 0x88,
            Operator::MemberOf => 0x89,
            Operator::DeviceMemberOf => 0x8a,
            Operator::MemberOfAny => 0x8b,
            Operator::DeviceMemberOfAny => 0x8c,
            Operator::NotExists => 0x8d,
            Operator::NotContains => 0x8e,
            Operator::NotAnyOf => 0x8f,
            Operator::NotMemberOf => 0x90,
            Operator::NotDeviceMemberOf => 0x91,
            Operator::NotMemberOfAny => 0x92,
            Operator::NotDeviceMemberOfAny => 0x93,
            Operator::And => 0xa0,
            Operator::Or => 0xa1,
            Operator::Not => 0xa2,
        }
    }

    /// The operator of a byte.
    pub(crate) fn of_byte(byte: u8) -> Option<Operator>
        ensures { result ≡ operator_read byte }
    {
        match byte {
            0x80 => Some(Operator::Equal),
            0x81 => Some(Operator::NotEqual),
            0x82 => Some(Operator::Less),
            0x83 => Some(Operator::LessOrEqual),
            0x84 => Some(Operator::Greater),
            0x85 => Some(Operator::GreaterOrEqual),
            0x86 => Some(Operator::Contains),
            0x87 => Some(Operator::Exists),
            0x88 => Some(Operator::AnyOf),
            0x89 => Some(Operator::MemberOf),
            0x8a => Some(Operator::DeviceMemberOf),
            0x8b => Some(Operator::MemberOfAny),
            0x8c => Some(Operator::DeviceMemberOfAny),
            0x8d => Some(Operator::NotExists),
            0x8e => Some(Operator::NotContains),
            0x8f => Some(Operator::NotAnyOf),
            0x90 => Some(Operator::NotMemberOf),
            0x91 => Some(Operator::NotDeviceMemberOf),
            0x92 => Some(Operator::NotMemberOfAny),
            0x93 => Some(Operator::NotDeviceMemberOfAny),
            0xa0 => Some(Operator::And),
            0xa1 => Some(Operator::Or),
            0xa2 => Some(Operator::Not),
            _ => None,
        }
    }
}

/// What an operator takes from the stack ([MS-DTYP] 2.4.4.17.6, 2.4.4.17.7); it leaves a condition.
#[derive(Clone, Copy, Debug, PartialEq, Eq)]
pub(crate) enum Takes {
    /// An attribute, and on the right an attribute or a value.
    Comparison,
    Attribute,
    /// A SID, or a list of SIDs.
    Sids,
    /// Two conditions or attributes.
    TwoConditions,
    /// A condition or an attribute.
    Condition,
}

impl Takes {
    /// What the operator takes.
    pub(crate) fn of(operator: Operator) -> Takes
        ensures { result ≡ taken_by operator }
    {
        match operator {
            Operator::Equal => Takes::Comparison,
            Operator::NotEqual => Takes::Comparison,
            Operator::Less => Takes::Comparison,
            Operator::LessOrEqual => Takes::Comparison,
            Operator::Greater => Takes::Comparison,
            Operator::GreaterOrEqual => Takes::Comparison,
            Operator::Contains => Takes::Comparison,
            Operator::Exists => Takes::Attribute,
            Operator::AnyOf => Takes::Comparison,
            Operator::MemberOf => Takes::Sids,
            Operator::DeviceMemberOf => Takes::Sids,
            Operator::MemberOfAny => Takes::Sids,
            Operator::DeviceMemberOfAny => Takes::Sids,
            Operator::NotExists => Takes::Attribute,
            Operator::NotContains => Takes::Comparison,
            Operator::NotAnyOf => Takes::Comparison,
            Operator::NotMemberOf => Takes::Sids,
            Operator::NotDeviceMemberOf => Takes::Sids,
            Operator::NotMemberOfAny => Takes::Sids,
            Operator::NotDeviceMemberOfAny => Takes::Sids,
            Operator::And => Takes::TwoConditions,
            Operator::Or => Takes::TwoConditions,
            Operator::Not => Takes::Condition,
        }
    }
}
