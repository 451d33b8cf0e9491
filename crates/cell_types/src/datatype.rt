//! The datatypes of columns (Metadata Vocabulary for Tabular Data, section 5.11), and the forms of their texts.
ghost use Rattle.std.specs.Prelude.{◌≡◌, ◌≢◌, MatchOption};
ghost use Rattle.cell_types.specs.declared.datatype.DateForm.{DateForm};
ghost use Rattle.cell_types.specs.Datatype.{pattern_of};

/// The texts of true and false.
#[derive(PartialEq, Eq, Drop)]
pub enum BooleanForm {
    /// `true` or `1`, and `false` or `0`.
    Standard,
    /// A format `T|F`: the text of true, then that of false.
    Texts(String, String),
}

/// How dates are written, in the letters of Unicode Technical Standard 35.
#[derive(Clone, Copy, PartialEq, Eq)]
pub enum DateForm {
    /// `yyyy-MM-dd`
    YearMonthDay,
    /// `yyyyMMdd`
    Compact,
    /// `dd/MM/yyyy`
    DayMonthYear,
    /// `MM/dd/yyyy`
    MonthDayYear,
    /// `dd.MM.yyyy`
    Dotted,
}

impl DateForm {
    /// Returns the form of a pattern, of these five.
    pub fn of_pattern(pattern: &str) -> Option<DateForm>
        ensures { MatchOption result ((form : DateForm) → pattern_of form ≢ pattern.now)
            (λ form. pattern_of form ≡ pattern.now) }
    {
        match pattern {
            "yyyy-MM-dd" => Some(DateForm::YearMonthDay),
            "yyyyMMdd" => Some(DateForm::Compact),
            "dd/MM/yyyy" => Some(DateForm::DayMonthYear),
            "MM/dd/yyyy" => Some(DateForm::MonthDayYear),
            "dd.MM.yyyy" => Some(DateForm::Dotted),
            _ => None,
        }
    }
}

/// What the cells of a column are.
#[derive(PartialEq, Eq, Drop)]
pub enum Datatype {
    /// `integer`: a whole number of 64 signed bits.
    Integer,
    /// `string`: any text.
    Text,
    /// `boolean`: true or false.
    Boolean(BooleanForm),
    /// `date`: a day of the years 1 to 9999, in no time zone.
    Date(DateForm),
    /// `decimal`: a whole number of millionths of 64 signed bits.
    Decimal,
}
