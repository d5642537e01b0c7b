// The five published turn rules.
ghost use Rattle.std.specs.Prelude.{◌≡◌};
ghost use Rattle.route.specs.Turns.{rule_table};
ghost use Rattle.route.specs.Numbers.{published, IsRuleOf};
ghost use Rattle.route.specs.Coded.{bits};

/// A published turn rule, in the order of the rules' numbers.
#[derive(Clone, Copy, Debug, PartialEq, Eq)]
pub enum Rule {
    Xy,
    WestFirst,
    NorthLast,
    NegativeFirst,
    OddEven,
}

/// A number that is no rule's.
#[derive(Clone, Copy, Debug, PartialEq, Eq)]
pub struct UnknownRule(pub u8);

impl Rule {
    // The turns that the rule allows, as a mesh has them: a word of 16 bits.
    pub fn table(self) -> u16
        ensures { bits result ≡ rule_table (published self) }
    {
        match self {
            Rule::Xy => 0xf0f0,
            Rule::WestFirst => 0xf5f5,
            Rule::NorthLast => 0xfcfc,
            Rule::NegativeFirst => 0xdddd,
            Rule::OddEven => 0xf5cf,
        }
    }
}

impl TryFrom<u8> for Rule {
    type Error = UnknownRule;

    ghost try_from_gives = { IsRuleOf };

    fn try_from(number: u8) -> Result<Self, UnknownRule> {
        match number {
            0 => Ok(Rule::Xy),
            1 => Ok(Rule::WestFirst),
            2 => Ok(Rule::NorthLast),
            3 => Ok(Rule::NegativeFirst),
            4 => Ok(Rule::OddEven),
            _ => Err(UnknownRule(number)),
        }
    }
}
