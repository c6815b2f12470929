//! What is expected in a rule's place, by the next lexeme.

ghost use Rattle.std.specs.Prelude.{◌≡◌, IfOk};
ghost use Rattle.tsql_grammar.specs.declared.rule.Rule.TheVariants as r;
ghost use Rattle.tsql_recognizer.specs.Stack.{expected, pick, Opens, symbols_of_rule};

use crate::choice::push_chosen;
use crate::counts::{compared, opened, operand, tested};
use crate::lexemes::{
    BEFORE_ELSE, BEGIN, BREAK, CATCH, CLOSE, COMMA, COMMIT, CONTINUE, CREATE, DEALLOCATE, DECLARE,
    DELETE, DROP, ELSE, END, EXECUTE, FETCH, FROM, IF, INSERT, INTO, NAME, OPEN, PAREN_CLOSE,
    PAREN_OPEN, PRINT, RAISE_ERROR, RETURN, ROLLBACK, SAVE, SELECT, SEMICOLON, SET, THROW, TRY,
    UPDATE, USE, WHILE,
};
use crate::symbol::Symbol;
use crate::table::{arguments_of, productions};
use std::alloc::AllocError;
use tsql_grammar::{Around, Function, Kind, Mark, Rule};

/// Puts what is expected in a rule's place on the stack, if one lexeme ahead chooses it.
pub(crate) fn open(
    rule: Rule,
    next: Option<Kind>,
    stack: &mut Vec<Symbol>,
) -> Result<bool, AllocError>
    ensures { IfOk result (λ found. Opens (pick (symbols_of_rule rule) next) found (expected stack.old.items) (expected stack.new.items)) }
{
    match rule {
        Rule::Body(around) => body(around, next, stack),
        Rule::Statement(around) => statement(around, next, stack),
        Rule::OtherStatement(around) => other_statement(around, next, stack),
        Rule::AfterBegin(around) => after_begin(around, next, stack),
        Rule::Else(around) => alternative(around, next, stack),
        Rule::ThrowArguments(around) => throw_arguments(around, next, stack),
        Rule::AfterItemFunction(function) => after_item_function(function, next, stack),
        Rule::Opened(count) => opened(count, next, stack),
        Rule::Operand(count) => operand(count, next, stack),
        Rule::Compared(count) => compared(count, next, stack),
        Rule::Tested(count) => tested(count, next, stack),
        Rule::AfterFunction(function) => after_function(function, next, stack),
        Rule::FunctionArguments(function) => function_arguments(function, next, stack),
        _ => push_chosen(stack, productions(rule), next),
    }
}

fn body(around: Around, next: Option<Kind>, stack: &mut Vec<Symbol>) -> Result<bool, AllocError>
    ensures { IfOk result (λ found. Opens (pick (symbols_of_rule (r.Body around)) next) found (expected stack.old.items) (expected stack.new.items)) }
{
    push_chosen(
        stack,
        &[
            &[SEMICOLON, Symbol::Rule(Rule::Body(around))],
            &[
                Symbol::Rule(Rule::Statement(around)),
                Symbol::Rule(Rule::Body(around)),
            ],
            &[],
        ],
        next,
    )
}

fn statement(
    around: Around,
    next: Option<Kind>,
    stack: &mut Vec<Symbol>,
) -> Result<bool, AllocError>
    ensures { IfOk result (λ found. Opens (pick (symbols_of_rule (r.Statement around)) next) found (expected stack.old.items) (expected stack.new.items)) }
{
    push_chosen(
        stack,
        &[
            &[CREATE, Symbol::Rule(Rule::Table)],
            &[Symbol::Rule(Rule::OtherStatement(around))],
        ],
        next,
    )
}

fn other_statement(
    around: Around,
    next: Option<Kind>,
    stack: &mut Vec<Symbol>,
) -> Result<bool, AllocError>
    ensures { IfOk result (λ found. Opens (pick (symbols_of_rule (r.OtherStatement around)) next) found (expected stack.old.items) (expected stack.new.items)) }
{
    if around.in_while {
        push_chosen(
            stack,
            &[
                &[SELECT, Symbol::Rule(Rule::Select)],
                &[
                    INSERT,
                    Symbol::Rule(Rule::Into),
                    Symbol::Rule(Rule::Object),
                    Symbol::Rule(Rule::AfterInsertTable),
                ],
                &[
                    UPDATE,
                    Symbol::Rule(Rule::Object),
                    SET,
                    Symbol::Rule(Rule::Assignment),
                    Symbol::Rule(Rule::MoreAssignments),
                    Symbol::Rule(Rule::Where),
                ],
                &[
                    DELETE,
                    Symbol::Rule(Rule::DeleteFrom),
                    Symbol::Rule(Rule::Object),
                    Symbol::Rule(Rule::Where),
                ],
                &[
                    DROP,
                    Symbol::Rule(Rule::DropKind),
                    Symbol::Rule(Rule::Object),
                ],
                &[
                    IF,
                    Symbol::Mark(Mark::Enter),
                    Symbol::Rule(Rule::Test),
                    Symbol::Rule(Rule::Statement(around)),
                    Symbol::Rule(Rule::Else(around)),
                    Symbol::Mark(Mark::Leave),
                ],
                &[
                    WHILE,
                    Symbol::Mark(Mark::Enter),
                    Symbol::Rule(Rule::Test),
                    Symbol::Rule(Rule::Statement(Around {
                        in_while: true,
                        in_catch: around.in_catch,
                    })),
                    Symbol::Mark(Mark::Leave),
                ],
                &[BEGIN, Symbol::Rule(Rule::AfterBegin(around))],
                &[PRINT, Symbol::Rule(Rule::Expr)],
                &[
                    RAISE_ERROR,
                    PAREN_OPEN,
                    Symbol::Rule(Rule::Expr),
                    COMMA,
                    Symbol::Rule(Rule::Expr),
                    COMMA,
                    Symbol::Rule(Rule::Expr),
                    PAREN_CLOSE,
                ],
                &[RETURN, Symbol::Rule(Rule::OptionalExpr)],
                &[THROW, Symbol::Rule(Rule::ThrowArguments(around))],
                &[DECLARE, Symbol::Rule(Rule::AfterDeclare)],
                &[SET, Symbol::Rule(Rule::AfterSet)],
                &[COMMIT, Symbol::Rule(Rule::TransactionEnd)],
                &[ROLLBACK, Symbol::Rule(Rule::TransactionEnd)],
                &[SAVE, Symbol::Rule(Rule::TransactionWord), NAME],
                &[OPEN, NAME],
                &[
                    FETCH,
                    Symbol::Rule(Rule::Next),
                    FROM,
                    NAME,
                    INTO,
                    Symbol::Rule(Rule::Variables),
                ],
                &[CLOSE, NAME],
                &[DEALLOCATE, NAME],
                &[USE, NAME],
                &[EXECUTE, Symbol::Rule(Rule::AfterExecute)],
                &[BREAK],
                &[CONTINUE],
            ],
            next,
        )
    } else {
        push_chosen(
            stack,
            &[
                &[SELECT, Symbol::Rule(Rule::Select)],
                &[
                    INSERT,
                    Symbol::Rule(Rule::Into),
                    Symbol::Rule(Rule::Object),
                    Symbol::Rule(Rule::AfterInsertTable),
                ],
                &[
                    UPDATE,
                    Symbol::Rule(Rule::Object),
                    SET,
                    Symbol::Rule(Rule::Assignment),
                    Symbol::Rule(Rule::MoreAssignments),
                    Symbol::Rule(Rule::Where),
                ],
                &[
                    DELETE,
                    Symbol::Rule(Rule::DeleteFrom),
                    Symbol::Rule(Rule::Object),
                    Symbol::Rule(Rule::Where),
                ],
                &[
                    DROP,
                    Symbol::Rule(Rule::DropKind),
                    Symbol::Rule(Rule::Object),
                ],
                &[
                    IF,
                    Symbol::Mark(Mark::Enter),
                    Symbol::Rule(Rule::Test),
                    Symbol::Rule(Rule::Statement(around)),
                    Symbol::Rule(Rule::Else(around)),
                    Symbol::Mark(Mark::Leave),
                ],
                &[
                    WHILE,
                    Symbol::Mark(Mark::Enter),
                    Symbol::Rule(Rule::Test),
                    Symbol::Rule(Rule::Statement(Around {
                        in_while: true,
                        in_catch: around.in_catch,
                    })),
                    Symbol::Mark(Mark::Leave),
                ],
                &[BEGIN, Symbol::Rule(Rule::AfterBegin(around))],
                &[PRINT, Symbol::Rule(Rule::Expr)],
                &[
                    RAISE_ERROR,
                    PAREN_OPEN,
                    Symbol::Rule(Rule::Expr),
                    COMMA,
                    Symbol::Rule(Rule::Expr),
                    COMMA,
                    Symbol::Rule(Rule::Expr),
                    PAREN_CLOSE,
                ],
                &[RETURN, Symbol::Rule(Rule::OptionalExpr)],
                &[THROW, Symbol::Rule(Rule::ThrowArguments(around))],
                &[DECLARE, Symbol::Rule(Rule::AfterDeclare)],
                &[SET, Symbol::Rule(Rule::AfterSet)],
                &[COMMIT, Symbol::Rule(Rule::TransactionEnd)],
                &[ROLLBACK, Symbol::Rule(Rule::TransactionEnd)],
                &[SAVE, Symbol::Rule(Rule::TransactionWord), NAME],
                &[OPEN, NAME],
                &[
                    FETCH,
                    Symbol::Rule(Rule::Next),
                    FROM,
                    NAME,
                    INTO,
                    Symbol::Rule(Rule::Variables),
                ],
                &[CLOSE, NAME],
                &[DEALLOCATE, NAME],
                &[USE, NAME],
                &[EXECUTE, Symbol::Rule(Rule::AfterExecute)],
            ],
            next,
        )
    }
}

fn after_begin(
    around: Around,
    next: Option<Kind>,
    stack: &mut Vec<Symbol>,
) -> Result<bool, AllocError>
    ensures { IfOk result (λ found. Opens (pick (symbols_of_rule (r.AfterBegin around)) next) found (expected stack.old.items) (expected stack.new.items)) }
{
    push_chosen(
        stack,
        &[
            &[
                Symbol::Rule(Rule::TransactionWord),
                Symbol::Rule(Rule::OptionalName),
            ],
            &[
                Symbol::Mark(Mark::Enter),
                TRY,
                Symbol::Rule(Rule::Body(around)),
                END,
                Symbol::Mark(Mark::Leave),
                TRY,
                Symbol::Rule(Rule::OptionalSemicolon),
                BEGIN,
                Symbol::Mark(Mark::Enter),
                CATCH,
                Symbol::Rule(Rule::Body(Around {
                    in_while: around.in_while,
                    in_catch: true,
                })),
                END,
                Symbol::Mark(Mark::Leave),
                CATCH,
            ],
            &[
                Symbol::Mark(Mark::Enter),
                Symbol::Rule(Rule::Semicolons),
                Symbol::Rule(Rule::Statement(around)),
                Symbol::Rule(Rule::Body(around)),
                END,
                Symbol::Mark(Mark::Leave),
            ],
        ],
        next,
    )
}

fn alternative(
    around: Around,
    next: Option<Kind>,
    stack: &mut Vec<Symbol>,
) -> Result<bool, AllocError>
    ensures { IfOk result (λ found. Opens (pick (symbols_of_rule (r.Else around)) next) found (expected stack.old.items) (expected stack.new.items)) }
{
    push_chosen(
        stack,
        &[
            &[ELSE, Symbol::Rule(Rule::Statement(around))],
            &[BEFORE_ELSE, ELSE, Symbol::Rule(Rule::Statement(around))],
            &[],
        ],
        next,
    )
}

fn throw_arguments(
    around: Around,
    next: Option<Kind>,
    stack: &mut Vec<Symbol>,
) -> Result<bool, AllocError>
    ensures { IfOk result (λ found. Opens (pick (symbols_of_rule (r.ThrowArguments around)) next) found (expected stack.old.items) (expected stack.new.items)) }
{
    if around.in_catch {
        push_chosen(
            stack,
            &[
                &[
                    Symbol::Rule(Rule::Expr),
                    COMMA,
                    Symbol::Rule(Rule::Expr),
                    COMMA,
                    Symbol::Rule(Rule::Expr),
                ],
                &[],
            ],
            next,
        )
    } else {
        push_chosen(
            stack,
            &[&[
                Symbol::Rule(Rule::Expr),
                COMMA,
                Symbol::Rule(Rule::Expr),
                COMMA,
                Symbol::Rule(Rule::Expr),
            ]],
            next,
        )
    }
}

fn after_item_function(
    function: Function,
    next: Option<Kind>,
    stack: &mut Vec<Symbol>,
) -> Result<bool, AllocError>
    ensures { IfOk result (λ found. Opens (pick (symbols_of_rule (r.AfterItemFunction function)) next) found (expected stack.old.items) (expected stack.new.items)) }
{
    push_chosen(
        stack,
        &[
            &[
                Symbol::Rule(Rule::FunctionArguments(function)),
                Symbol::Rule(Rule::AfterItemOperand),
            ],
            &[Symbol::Rule(Rule::AfterItemName)],
        ],
        next,
    )
}

fn after_function(
    function: Function,
    next: Option<Kind>,
    stack: &mut Vec<Symbol>,
) -> Result<bool, AllocError>
    ensures { IfOk result (λ found. Opens (pick (symbols_of_rule (r.AfterFunction function)) next) found (expected stack.old.items) (expected stack.new.items)) }
{
    push_chosen(
        stack,
        &[
            &[Symbol::Rule(Rule::FunctionArguments(function))],
            &[Symbol::Rule(Rule::AfterName)],
        ],
        next,
    )
}

fn function_arguments(
    function: Function,
    next: Option<Kind>,
    stack: &mut Vec<Symbol>,
) -> Result<bool, AllocError>
    ensures { IfOk result (λ found. Opens (pick (symbols_of_rule (r.FunctionArguments function)) next) found (expected stack.old.items) (expected stack.new.items)) }
{
    push_chosen(stack, arguments_of(function), next)
}
