//! What is expected in the place of the rules that count open parentheses, by the next lexeme.

ghost use Rattle.std.specs.Prelude.{◌≡◌, ◌+◌, suc, IfOk};
ghost use Rattle.tsql_grammar.specs.declared.rule.Rule.TheVariants as r;
ghost use Rattle.tsql_recognizer.specs.Stack.{expected, pick, Opens, symbols_of_rule};

use crate::choice::{push_all, push_chosen};
use crate::fronts::may_begin;
use crate::lexemes::{EXISTS, NOT, PAREN_CLOSE, PAREN_OPEN, SELECT};
use crate::symbol::Symbol;
use std::alloc::AllocError;
use tsql_grammar::{Kind, Mark, Rule};
use tsql_lexer::Sign;

pub(crate) fn opened(
    count: u32,
    next: Option<Kind>,
    stack: &mut Vec<Symbol>,
) -> Result<bool, AllocError>
    ensures { IfOk result (λ found. Opens (pick (symbols_of_rule (r.Opened count)) next) found (expected stack.old.items) (expected stack.new.items)) }
{
    let Some(more) = count.checked_add(1) else {
        return Err(AllocError);
    };
    match next {
        Some(Kind::Sign(Sign::Open)) => {
            push_all(
                stack,
                &[
                    PAREN_OPEN,
                    Symbol::Mark(Mark::Enter),
                    Symbol::Rule(Rule::Opened(more)),
                ],
            )?;
            Ok(true)
        }
        Some(kind) if may_begin(Rule::SimplePrimary, kind) => {
            push_all(
                stack,
                &[
                    Symbol::Rule(Rule::SimplePrimary),
                    Symbol::Rule(Rule::Operand(more)),
                ],
            )?;
            Ok(true)
        }
        _ => opened_otherwise(count, more, next, stack),
    }
}

/// The same, whatever comes next.
fn opened_otherwise(
    count: u32,
    more: u32,
    next: Option<Kind>,
    stack: &mut Vec<Symbol>,
) -> Result<bool, AllocError>
    requires { more ≡ count + 1 }
    ensures { IfOk result (λ found. Opens (pick (symbols_of_rule (r.Opened count)) next) found (expected stack.old.items) (expected stack.new.items)) }
{
    push_chosen(
        stack,
        &[
            &[
                PAREN_OPEN,
                Symbol::Mark(Mark::Enter),
                Symbol::Rule(Rule::Opened(more)),
            ],
            &[
                Symbol::Rule(Rule::SimplePrimary),
                Symbol::Rule(Rule::Operand(more)),
            ],
            &[
                Symbol::Rule(Rule::AddSign),
                Symbol::Rule(Rule::MoreSigns),
                Symbol::Rule(Rule::Primary),
                Symbol::Rule(Rule::Operand(more)),
            ],
            &[
                SELECT,
                Symbol::Rule(Rule::Select),
                PAREN_CLOSE,
                Symbol::Mark(Mark::Leave),
                Symbol::Rule(Rule::Operand(count)),
            ],
            &[
                NOT,
                Symbol::Rule(Rule::MoreNots),
                Symbol::Rule(Rule::Basic),
                Symbol::Rule(Rule::MoreAnds),
                Symbol::Rule(Rule::MoreOrs),
                PAREN_CLOSE,
                Symbol::Mark(Mark::Leave),
                Symbol::Rule(Rule::Tested(count)),
            ],
            &[
                EXISTS,
                Symbol::Mark(Mark::Enter),
                PAREN_OPEN,
                SELECT,
                Symbol::Rule(Rule::Select),
                PAREN_CLOSE,
                Symbol::Mark(Mark::Leave),
                Symbol::Rule(Rule::MoreAnds),
                Symbol::Rule(Rule::MoreOrs),
                PAREN_CLOSE,
                Symbol::Mark(Mark::Leave),
                Symbol::Rule(Rule::Tested(count)),
            ],
        ],
        next,
    )
}

pub(crate) fn operand(
    count: u32,
    next: Option<Kind>,
    stack: &mut Vec<Symbol>,
) -> Result<bool, AllocError>
    ensures { IfOk result (λ found. Opens (pick (symbols_of_rule (r.Operand count)) next) found (expected stack.old.items) (expected stack.new.items)) }
{
    push_chosen(
        stack,
        &[&[
            Symbol::Rule(Rule::MoreFactors),
            Symbol::Rule(Rule::MoreTerms),
            Symbol::Rule(Rule::Compared(count)),
        ]],
        next,
    )
}

pub(crate) fn compared(
    count: u32,
    next: Option<Kind>,
    stack: &mut Vec<Symbol>,
) -> Result<bool, AllocError>
    ensures { IfOk result (λ found. Opens (pick (symbols_of_rule (r.Compared count)) next) found (expected stack.old.items) (expected stack.new.items)) }
{
    match count.checked_sub(1) {
        None => push_chosen(stack, &[&[Symbol::Rule(Rule::Comparison)]], next),
        Some(less) => compared_within(less, next, stack),
    }
}

/// The same in one parenthesis more than so many.
fn compared_within(
    less: u32,
    next: Option<Kind>,
    stack: &mut Vec<Symbol>,
) -> Result<bool, AllocError>
    ensures { IfOk result (λ found. Opens (pick (symbols_of_rule (r.Compared (suc less))) next) found (expected stack.old.items) (expected stack.new.items)) }
{
    if let Some(Kind::Sign(Sign::Close)) = next {
        push_all(
            stack,
            &[
                PAREN_CLOSE,
                Symbol::Mark(Mark::Leave),
                Symbol::Rule(Rule::Operand(less)),
            ],
        )?;
        return Ok(true);
    }
    push_chosen(
        stack,
        &[
            &[
                PAREN_CLOSE,
                Symbol::Mark(Mark::Leave),
                Symbol::Rule(Rule::Operand(less)),
            ],
            &[
                Symbol::Rule(Rule::Comparison),
                Symbol::Rule(Rule::MoreAnds),
                Symbol::Rule(Rule::MoreOrs),
                PAREN_CLOSE,
                Symbol::Mark(Mark::Leave),
                Symbol::Rule(Rule::Tested(less)),
            ],
        ],
        next,
    )
}

pub(crate) fn tested(
    count: u32,
    next: Option<Kind>,
    stack: &mut Vec<Symbol>,
) -> Result<bool, AllocError>
    ensures { IfOk result (λ found. Opens (pick (symbols_of_rule (r.Tested count)) next) found (expected stack.old.items) (expected stack.new.items)) }
{
    match count.checked_sub(1) {
        None => push_chosen(stack, &[&[]], next),
        Some(less) => push_chosen(
            stack,
            &[&[
                Symbol::Rule(Rule::MoreAnds),
                Symbol::Rule(Rule::MoreOrs),
                PAREN_CLOSE,
                Symbol::Mark(Mark::Leave),
                Symbol::Rule(Rule::Tested(less)),
            ]],
            next,
        ),
    }
}
