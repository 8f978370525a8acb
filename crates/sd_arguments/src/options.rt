//! What may stand between the program's name and the command, and what it says.
ghost use Rattle.std.specs.Prelude.{◌≡◌, ◌⊎◌, ℕ, IfErr, IfNone, IfOk, IfSome, option_map};
ghost use Rattle.sd_text.specs.Domain.{domain_sid};
ghost use Rattle.sd_text.specs.Grammar.{Spells};
ghost use Rattle.sd_text.specs.Sid.{sid_text};
ghost use Rattle.sd_answer.specs.Word.{texts};
ghost use Rattle.sd_arguments.specs.Options.{GivesDomain, GivesLimits, GivesScriptOptions, GivesNumber, GivesSelf};
ghost use Rattle.sd_arguments.specs.Options.{GivesSettings, HasBadValue, IsBadSelf, IsNoDomain, byte_form, given};
ghost use Rattle.sd_arguments.specs.Options.{has, is_repeated, no_options};
ghost use Rattle.sd_arguments.specs.Options.{options_of, output_of, spelling_of, style_of, with_option, with_type};
ghost use Rattle.sd_arguments.specs.Options.{with_value};
ghost use Rattle.sd_arguments.specs.UsageError.{accepted};

use crate::usage_error::{UsageError, UsageErrorKind};
use sd_commands::{
    ByteForm, MAX_TYPES, Settings, chain_given, concern_given, kind_given, logon_given,
    mapping_given,
};
use sd_line::{Output, Spelling, Style};
use sd_script::{Notation, PathSpelling, ScriptOptions, number_in};
use sd_sid::Sid;
use sd_text::{Aliases, Domain, read_sid_text, read_sid_text_in};
use sd_tree::{Limits, LimitsError};
use sd_usage::{OPTION_COUNT, OptionName};

/// The value of an option that isn't read.
#[derive(Clone, Copy)]
pub enum BadValue<'a> {
    /// The value of `--domain` is no domain's SID, and whether a caret shows where.
    NoDomain {
        text: &'a str,
        points: bool,
    },
    /// `--accounts` is given, whose file is read before.
    NoAccounts,
    /// The value of `--mapping` is no mapping.
    NoMapping,
    /// The value of `--logon` is no kind of logon.
    NoLogon,
    /// This part of the value of `--concern` is no SID with the aliases that are known, or one that no token has, or
    /// one more than 16; and whether a caret shows where.
    NoConcern {
        text: &'a str,
        known: Aliases,
        points: bool,
    },
    /// This value of `--type` is no object type.
    NoType {
        text: &'a str,
    },
    /// The value of `--self` is no SID with the aliases that are known, and whether a caret shows where.
    NoSelf {
        text: &'a str,
        known: Aliases,
        points: bool,
    },
    /// The value of `--nodes` is no number of nodes that limits allow.
    NoNodes,
    /// The value of `--edits` is no number of edits that limits allow.
    NoEdits,
}

/// The options of a command line, which go before the command, each at most once but for `--type`.
#[derive(Clone, Copy)]
pub struct Options<'a> {
    /// At the place of each its value, where it is given: empty for one without a value, and of `--type` the last.
    values: [Option<&'a str>; OPTION_COUNT],
    /// The values of `--type`, in order: as many of the first as `type_count` says.
    types: [&'a str; MAX_TYPES],
    type_count: usize,
}

impl<'a> Options<'a> {
    /// No option is given.
    pub(crate) fn none() -> Options<'a>
        ensures { options_of result ≡ no_options }
    {
        Options {
            values: [None; OPTION_COUNT],
            types: [""; MAX_TYPES],
            type_count: 0,
        }
    }

    /// The value of an option, if it is given: empty for one without a value, and of `--type` the last.
    pub fn given(self, option: OptionName) -> Option<&'a str>
        ensures { option_map (λ text. text.now) result ≡ given (options_of self.entry) option }
    {
        self.values[option.place()]
    }

    pub fn has(self, option: OptionName) -> bool
        ensures { result ≡ has (options_of self.entry) option }
    {
        self.given(option).is_some()
    }

    /// The values of `--type`, in order.
    fn types(&self) -> &[&'a str]
        ensures { texts result.now ≡ (options_of self.now).types }
    {
        &self.types[..self.type_count.min(MAX_TYPES)]
    }

    /// The options and one more, with `left` arguments from it on; `RepeatedOption` if it is given already and may not
    /// be given again.
    pub(crate) fn with_option(
        self,
        left: usize,
        option: OptionName,
        value: &'a str,
    ) -> Result<Self, UsageError>
        ensures { accepted options_of result ≡ with_option (options_of self.entry) option value.now }
    {
        if is_repeated(option) {
            return match self.with_type(option, value) {
                Some(more) => Ok(more),
                None => Err(UsageError::new(left, 0, UsageErrorKind::TooManyTypes)),
            };
        }
        if self.has(option) {
            return Err(UsageError::new(left, 0, UsageErrorKind::RepeatedOption));
        }
        Ok(self.with_value(option, value))
    }

    /// The options, with this value of one.
    fn with_value(self, option: OptionName, value: &'a str) -> Self
        ensures { options_of result ≡ with_value (options_of self.entry) option value.now }
    {
        let mut values = self.values;
        values[option.place()] = Some(value);
        Options { values, ..self }
    }

    /// The options and one more object type, if there are fewer than five.
    fn with_type(self, option: OptionName, value: &'a str) -> Option<Self>
        ensures { option_map options_of result ≡ with_type (options_of self.entry) option value.now }
    {
        if self.type_count >= MAX_TYPES {
            return None;
        }
        let mut types = self.types;
        types[self.type_count] = value;
        let type_count = self.type_count + 1;
        Some(Options {
            types,
            type_count,
            ..self.with_value(option, value)
        })
    }

    /// What they say of a descriptor, or whose value isn't read: first `--accounts`'s, then `--domain`'s, which is a
    /// domain's SID ([MS-DTYP] 2.4.2.4).
    pub fn settings(self) -> Result<Settings, BadValue<'a>>
        ensures { GivesSettings (options_of self.entry) result }
    {
        if self.has(OptionName::Accounts) {
            return Err(BadValue::NoAccounts);
        }
        let domain = self.domain_given()?;
        let given = self.given(OptionName::Mapping);
        let Some(mapping) = mapping_given(given) else {
            return Err(BadValue::NoMapping);
        };
        let Some(logon) = logon_given(self.given(OptionName::Logon)) else {
            return Err(BadValue::NoLogon);
        };
        let chain = match chain_given(self.types()) {
            Ok(chain) => chain,
            Err(text) => return Err(BadValue::NoType { text }),
        };
        let aliases = Aliases {
            domain,
            later: self.has(OptionName::Aliases),
        };
        let principal_self = self.principal_self_given(aliases)?;
        let concern = match concern_given(aliases, self.given(OptionName::Concern)) {
            Ok(concern) => concern,
            Err(text) => {
                let (known, points) = (aliases, self.has(OptionName::Caret));
                return Err(BadValue::NoConcern {
                    text,
                    known,
                    points,
                });
            }
        };
        Ok(Settings {
            aliases,
            mapping,
            kind: kind_given(given),
            logon,
            whole: self.has(OptionName::Whole),
            chain,
            principal_self,
            without_bits: self.has(OptionName::WithoutBits),
            require_dacl: self.has(OptionName::RequireDacl),
            below: self.has(OptionName::Below),
            object: self.has(OptionName::Object),
            risks: self.has(OptionName::Risks) || self.has(OptionName::Concern),
            concern,
            points: self.has(OptionName::Caret),
            spelling: self.spelling(),
            bytes: self.byte_form(),
        })
    }

    /// How masks and entries are spelled.
    fn spelling(self) -> Spelling
        ensures { result ≡ spelling_of (options_of self.entry) }
    {
        if self.has(OptionName::Names) {
            Spelling::Names(kind_given(self.given(OptionName::Mapping)))
        } else {
            Spelling::Number
        }
    }

    /// How answers are printed.
    pub fn style(self) -> Style
        ensures { result ≡ style_of (options_of self.entry) }
    {
        Style {
            spelling: self.spelling(),
            output: self.output(),
        }
    }

    /// What lines are printed as: `--json` has no colours.
    fn output(self) -> Output
        ensures { result ≡ output_of (options_of self.entry) }
    {
        if self.has(OptionName::Json) {
            Output::Json
        } else if self.has(OptionName::Color) {
            Output::Coloured
        } else {
            Output::Text
        }
    }

    /// How bytes are spelled.
    fn byte_form(self) -> ByteForm
        ensures { result ≡ byte_form (options_of self.entry) }
    {
        if self.has(OptionName::Base64) {
            ByteForm::Base64
        } else if self.has(OptionName::Loose) {
            ByteForm::Loose
        } else {
            ByteForm::Hex
        }
    }

    /// How they have a script carried out, or whose value isn't read: first those of `settings`, then `--nodes`'s and
    /// `--edits`'s.
    pub fn script_options(self) -> Result<ScriptOptions, BadValue<'a>>
        ensures { GivesScriptOptions (options_of self.entry) result }
    {
        let settings = self.settings()?;
        let limits = self.limits()?;
        Ok(ScriptOptions {
            mapping: settings.mapping,
            limits,
            notation: Notation {
                spelling: settings.spelling,
                kind: settings.kind,
                aliases: settings.aliases,
                whole: settings.whole,
                output: self.output(),
                paths: if self.has(OptionName::Percent) {
                    PathSpelling::Percent
                } else {
                    PathSpelling::Plain
                },
            },
        })
    }

    /// The limits of the store that a script opens, or whose value isn't read: first `--nodes`'s.
    fn limits(self) -> Result<Limits, BadValue<'a>>
        ensures { GivesLimits (options_of self.entry) result }
    {
        let standard = Limits::standard();
        let nodes = number_given(self.given(OptionName::Nodes), standard.nodes());
        let edits = number_given(self.given(OptionName::Edits), standard.edits());
        match Limits::new(nodes, edits) {
            Ok(limits) => Ok(limits),
            Err(LimitsError::NoNodes | LimitsError::TooManyNodes) => Err(BadValue::NoNodes),
            Err(LimitsError::TooManyEdits) => Err(BadValue::NoEdits),
        }
    }

    /// The SID for which PRINCIPAL SELF stands, if it is given ([MS-DTYP] 2.4.2.4).
    fn principal_self_given(self, known: Aliases) -> Result<Option<Sid>, BadValue<'a>>
        ensures given { IfOk result (GivesSelf known (given (options_of self.entry) OptionName.PrincipalSelf)) }
        ensures bad { IfErr result (λ bad. IsBadSelf (options_of self.entry) known bad) }
    {
        let Some(text) = self.given(OptionName::PrincipalSelf) else {
            return Ok(None);
        };
        match read_sid_text_in(known, text) {
            Ok(sid) => Ok(Some(sid)),
            Err(_) => {
                let points = self.has(OptionName::Caret);
                Err(BadValue::NoSelf {
                    text,
                    known,
                    points,
                })
            }
        }
    }

    /// The domain whose SID is given, if one is.
    fn domain_given(self) -> Result<Option<Domain>, BadValue<'a>>
        ensures given { IfOk result (GivesDomain (given (options_of self.entry) OptionName.Domain)) }
        ensures bad { IfErr result (HasBadValue (options_of self.entry)) }
    {
        let Some(text) = self.given(OptionName::Domain) else {
            return Ok(None);
        };
        match domain_in(text) {
            Some(domain) => Ok(Some(domain)),
            None => {
                let points = self.has(OptionName::Caret);
                Err(BadValue::NoDomain { text, points })
            }
        }
    }
}

/// Whether the option may be given again.
fn is_repeated(option: OptionName) -> bool
    ensures { result ≡ is_repeated option }
{
    matches!(option, OptionName::Type)
}

/// The domain whose SID the text spells.
fn domain_in(text: &str) -> Option<Domain>
    ensures domain { IfSome result (λ domain. Spells sid_text text.now (domain_sid domain)) }
    ensures none { IfNone result (IsNoDomain text.now) }
{
    match read_sid_text(text) {
        Ok(sid) => Domain::new(&sid),
        Err(_) => None,
    }
}

/// The number that an option's value writes in decimal digits, or without the option the standard one. A text that is
/// no number below 2^64 gives the greatest, which is above all limits.
fn number_given(text: Option<&str>, standard: u64) -> u64
    ensures given { (n : ℕ) → GivesNumber (option_map (λ text. text.now) text.entry) standard n → result ≡ n }
    ensures other { GivesNumber (option_map (λ text. text.now) text.entry) standard result
        ⊎ (result ≡ 0xFFFFFFFFFFFFFFFF) }
{
    match text {
        None => standard,
        Some(text) => number_in(text).unwrap_or(u64::MAX),
    }
}
