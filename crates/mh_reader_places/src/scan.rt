//! The walk over the lexemes of a file that spells a module. Because the file is well formed, the section of the file
//! that a lexeme continues, and few counts, give its role.
ghost use Rattle.std.specs.Prelude.{◌≡◌, ◌<◌, ◌-◌, ◌^◌};
ghost use Rattle.mh_reader_places.specs.code.ScanSteps as steps;
ghost use Rattle.mh_reader_places.specs.code.ScanSteps.{HasRoom};

use crate::mentions::Role;
use mh_reader_parser::TokenKind;

/// The section of a file that a lexeme continues.
#[derive(Clone, Copy)]
pub(crate) enum Section {
    /// Declarations in which no name is part of the module.
    Unread,
    Tokens,
    Starts,
    Levels,
    OnError,
    /// Before the name of a rule.
    RuleStart,
    /// Between the name of a rule and its colon.
    Formals,
    /// Right after the colon, where a bar begins no alternative.
    BodyStart,
    Body,
    /// After the `%prec` of an alternative.
    Prec,
    /// After the action of a group.
    Group,
    /// After the `%prec` of a group.
    GroupPrec,
}

/// The section of the file, with what was counted so far.
#[derive(Clone, Copy)]
pub(crate) struct Scan {
    pub(crate) section: Section,
    /// The level declarations so far.
    levels: u64,
    /// The `%on_error_reduce` declarations so far.
    on_error: u64,
    /// The alternatives that are complete, and how many there were when the group began.
    alternatives: u64,
    group: u64,
    /// The actuals so far of the list or of the alternative.
    actuals: u64,
    /// The brackets that are open.
    brackets: u64,
}

/// This role for a word.
fn word_role(sign: TokenKind, role: Role) -> Option<Role>
    ensures { result ≡ steps.word_role sign role }
{
    match sign {
        TokenKind::Word => Some(role),
        _ => None,
    }
}

/// The role of a lexeme in a declaration of tokens.
fn token_role(sign: TokenKind) -> Option<Role>
    ensures { result ≡ steps.token_role sign }
{
    match sign {
        TokenKind::Word => Some(Role::Token),
        TokenKind::Quoted => Some(Role::Alias),
        _ => None,
    }
}

/// This role for a word or a string.
fn reference_role(sign: TokenKind, role: Role) -> Option<Role>
    ensures { result ≡ steps.reference_role sign role }
{
    match sign {
        TokenKind::Word => Some(role),
        TokenKind::Quoted => Some(role),
        _ => None,
    }
}

/// This role for a word, a string or a suffix.
fn head_role(sign: TokenKind, role: Role) -> Option<Role>
    ensures { result ≡ steps.head_role sign role }
{
    match sign {
        TokenKind::Word => Some(role),
        TokenKind::Quoted => Some(role),
        TokenKind::Question => Some(role),
        TokenKind::Star => Some(role),
        TokenKind::Plus => Some(role),
        _ => None,
    }
}

impl Scan {
    /// The walk before the first lexeme.
    pub(crate) fn new() -> Scan
        ensures { result ≡ steps.start }
    {
        Scan {
            section: Section::Unread,
            levels: 0,
            on_error: 0,
            alternatives: 0,
            group: 0,
            actuals: 0,
            brackets: 0,
        }
    }

    /// Continues in another section.
    fn enter(&mut self, section: Section)
        ensures { self.new ≡ steps.in_section section self.old }
    {
        self.section = section;
    }

    /// Begins another declaration of levels.
    fn begin_levels(&mut self)
        requires { self.old.levels < 2 ^ 64 - 1 }
        ensures { self.new ≡ steps.at_levels self.old }
    {
        self.section = Section::Levels;
        self.levels += 1;
    }

    /// Begins another `%on_error_reduce` declaration.
    fn begin_on_error(&mut self)
        requires { self.old.on_error < 2 ^ 64 - 1 }
        ensures { self.new ≡ steps.at_on_error self.old }
    {
        self.section = Section::OnError;
        self.on_error += 1;
        self.actuals = 0;
    }

    /// Begins a declaration, if the lexeme is its keyword, or the rules.
    fn declare(&mut self, sign: TokenKind)
        requires levels { self.old.levels < 2 ^ 64 - 1 }
        requires on_error { self.old.on_error < 2 ^ 64 - 1 }
        ensures { self.new ≡ steps.declared self.old sign }
    {
        match sign {
            TokenKind::Token => self.enter(Section::Tokens),
            TokenKind::Start => self.enter(Section::Starts),
            TokenKind::Level(_) => self.begin_levels(),
            TokenKind::OnErrorReduce => self.begin_on_error(),
            TokenKind::Type => self.enter(Section::Unread),
            TokenKind::Parameter => self.enter(Section::Unread),
            TokenKind::Attribute => self.enter(Section::Unread),
            TokenKind::Percents => self.enter(Section::RuleStart),
            _ => {}
        }
    }

    /// Counts a new actual: a word or string outside of brackets begins one.
    fn count_actual(&mut self)
        requires { HasRoom self.old }
        ensures { self.new ≡ steps.with_actual self.old }
    {
        if self.brackets == 0 {
            self.actuals += 1;
        }
    }

    /// Counts an open or closed bracket, or a new actual. A word before an equals sign is no actual, but a name.
    fn count(&mut self, sign: TokenKind)
        requires { HasRoom self.old }
        ensures { self.new ≡ steps.with_count self.old sign }
    {
        match sign {
            TokenKind::Open => self.brackets += 1,
            TokenKind::Close => self.brackets = self.brackets.saturating_sub(1),
            TokenKind::Word => self.count_actual(),
            TokenKind::Quoted => self.count_actual(),
            TokenKind::Equals => self.actuals = self.actuals.saturating_sub(1),
            _ => {}
        }
    }

    /// Ends an alternative.
    fn end_alternative(&mut self, section: Section)
        requires { HasRoom self.old }
        ensures { self.new ≡ steps.after_alternative section self.old }
    {
        self.section = section;
        self.alternatives += 1;
        self.actuals = 0;
    }

    /// Continues the body of a rule.
    fn take_in_body(&mut self, sign: TokenKind)
        requires { HasRoom self.old }
        ensures { self.new ≡ steps.in_body self.old sign }
    {
        match sign {
            TokenKind::Bar => self.end_alternative(Section::Body),
            TokenKind::Prec => self.enter(Section::Prec),
            TokenKind::Action => self.end_alternative(Section::Group),
            _ => {
                self.count(sign);
                self.enter(Section::Body);
            }
        }
    }

    /// Begins the body of a rule.
    fn take_at_body_start(&mut self, sign: TokenKind)
        requires { HasRoom self.old }
        ensures { self.new ≡ steps.at_body_start self.old sign }
    {
        match sign {
            TokenKind::Bar => self.enter(Section::Body),
            _ => self.take_in_body(sign),
        }
    }

    /// Continues after the `%prec` of an alternative.
    fn take_after_prec(&mut self, sign: TokenKind)
        requires { HasRoom self.old }
        ensures { self.new ≡ steps.after_prec self.old sign }
    {
        match sign {
            TokenKind::Bar => self.end_alternative(Section::Body),
            TokenKind::Action => self.end_alternative(Section::Group),
            _ => {}
        }
    }

    /// Takes a modifier or the name of a rule, or what is between rules.
    fn take_at_rule_start(&mut self, sign: TokenKind)
        ensures { self.new ≡ steps.at_rule_start self.old sign }
    {
        match sign {
            TokenKind::Word => self.enter(Section::Formals),
            _ => {}
        }
    }

    /// Begins a group.
    fn begin_group(&mut self, section: Section)
        ensures { self.new ≡ steps.at_group_start section self.old }
    {
        self.section = section;
        self.group = self.alternatives;
        self.actuals = 0;
    }

    /// Continues the formals of a rule.
    fn take_in_formals(&mut self, sign: TokenKind)
        ensures { self.new ≡ steps.in_formals self.old sign }
    {
        match sign {
            TokenKind::Colon => self.begin_group(Section::BodyStart),
            _ => {}
        }
    }

    /// Continues after the action of a group: with another group, with the next rule, or with the end of the rules.
    fn take_after_group(&mut self, sign: TokenKind)
        ensures { self.new ≡ steps.after_group self.old sign }
    {
        match sign {
            TokenKind::Bar => self.begin_group(Section::Body),
            TokenKind::Prec => self.enter(Section::GroupPrec),
            TokenKind::Word => self.enter(Section::Formals),
            TokenKind::Public => self.enter(Section::RuleStart),
            TokenKind::Inline => self.enter(Section::RuleStart),
            TokenKind::Semicolon => self.enter(Section::RuleStart),
            _ => {}
        }
    }

    /// Continues after the `%prec` of a group.
    fn take_after_group_prec(&mut self, sign: TokenKind)
        ensures { self.new ≡ steps.after_group_prec self.old sign }
    {
        match sign {
            TokenKind::Word => self.enter(Section::Group),
            TokenKind::Quoted => self.enter(Section::Group),
            _ => {}
        }
    }

    /// Counts a lexeme in an `%on_error_reduce` declaration, or begins another declaration.
    fn take_in_on_error(&mut self, sign: TokenKind)
        requires { HasRoom self.old }
        ensures { self.new ≡ steps.declared (steps.with_count self.old sign) sign }
    {
        self.count(sign);
        self.declare(sign);
    }

    /// Takes a lexeme: continues with the section of the file that the lexeme continues.
    pub(crate) fn take(&mut self, sign: TokenKind)
        requires { HasRoom self.old }
        ensures { self.new ≡ steps.taken self.old sign }
    {
        match self.section {
            Section::Unread => self.declare(sign),
            Section::Tokens => self.declare(sign),
            Section::Starts => self.declare(sign),
            Section::Levels => self.declare(sign),
            Section::OnError => self.take_in_on_error(sign),
            Section::RuleStart => self.take_at_rule_start(sign),
            Section::Formals => self.take_in_formals(sign),
            Section::BodyStart => self.take_at_body_start(sign),
            Section::Body => self.take_in_body(sign),
            Section::Prec => self.take_after_prec(sign),
            Section::Group => self.take_after_group(sign),
            Section::GroupPrec => self.take_after_group_prec(sign),
        }
    }

    /// The role of a head in the present producer.
    fn producer_role(&self) -> Role
        ensures { result ≡ steps.producer_role self.now }
    {
        Role::Head {
            alternative: self.alternatives,
            producer: self.actuals.saturating_sub(1),
        }
    }

    /// The role of a lexeme that continued this section, after the lexeme was counted.
    pub(crate) fn role_in(&self, section: Section, sign: TokenKind) -> Option<Role>
        ensures { result ≡ steps.role_in section self.now sign }
    {
        match section {
            Section::Unread => None,
            Section::Tokens => token_role(sign),
            Section::Starts => word_role(sign, Role::Start),
            Section::Levels => reference_role(
                sign,
                Role::Level {
                    rank: self.levels.saturating_sub(1),
                },
            ),
            Section::OnError => head_role(
                sign,
                Role::OnError {
                    rank: self.on_error.saturating_sub(1),
                    item: self.actuals.saturating_sub(1),
                },
            ),
            Section::RuleStart => word_role(sign, Role::Rule),
            Section::Formals => word_role(sign, Role::Formal),
            Section::BodyStart => head_role(sign, self.producer_role()),
            Section::Body => head_role(sign, self.producer_role()),
            Section::Prec => reference_role(
                sign,
                Role::Prec {
                    alternative: self.alternatives,
                },
            ),
            Section::Group => word_role(sign, Role::Rule),
            Section::GroupPrec => reference_role(
                sign,
                Role::GroupPrec {
                    first: self.group,
                    last: self.alternatives.saturating_sub(1),
                },
            ),
        }
    }
}
