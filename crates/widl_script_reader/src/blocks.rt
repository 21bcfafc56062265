//! The lines of a script, one after the other, among the blocks that they leave open.

ghost use Rattle.std.specs.Prelude.{◌≡◌, ◌+◌, ◌≤◌, [], OnOk, IfOk, fold, nat_eq, map, length, All, false, true};
ghost use Rattle.indexmap.specs.IndexSet.{insert_key};
ghost use Rattle.widl_lines.specs.declared.grammar.Terminal.TheVariants as terminal;
ghost use Rattle.widl_lines.specs.WordTerms.{lexeme_of};
ghost use Rattle.widl_script_tree.specs.Growth.{Grown};
ghost use Rattle.widl_script_tree.specs.Parts.{IsBodyLower, IsExpression, IsLowerRow, IsLowerStatement, IsName};
ghost use Rattle.widl_script_words.specs.StepReading.{is_block_word};
ghost use Rattle.widl_script_words.specs.StepReading.{block_terminal};
ghost use Rattle.widl_script_words.specs.Reading.{terminal_ahead};
ghost use Rattle.widl_script_reader.specs.StatementPuts.{AllStatements};
ghost use Rattle.widl_script_reader.specs.Building.{IsSoundFrame, LineRead, Sound, is_in_steps, stack_of};
ghost use Rattle.widl_script_reader.specs.BuilderSteps.{FrameClosed, IsAdded, IsClosed, IsDone, IsFunctionClosed, IsOpened, StepAdded, bound_by, else_tree, steps_tree, then_tree, tried_tree, with_catch, with_else};
ghost use Rattle.widl_script_reader.specs.Room.{HasLineRoom, PaysLine, entries, weight};

use crate::frames::{Builder, Frame, OpenBlock};
use crate::functions::FunctionHead;
use std::alloc::{AllocError, Global};
use std::mem;
use widl_lines::LineWords;
use widl_script_tree::{
    Function, LocalNames, Params, Row, Statement, StepLine, StepLines, StepsBlock, Target,
};
use widl_script_words::{BlockWord, Reader, block_word_of};
use widl_text::Items;

/// The names of parameters, each once.
fn local_params(alloc: Global, params: &Params) -> Result<LocalNames, AllocError>
    ensures { IfOk result (λ names. names ≡ fold (insert_key nat_eq) [] params.now) }
{
    let mut names = LocalNames::new(alloc);
    for name in params.as_slice() {
        names.put(*name)?;
    }
    Ok(names)
}

/// The block after its `catch`, if it is a `try`.
fn with_catch(block: OpenBlock, body: Row, name: u32) -> OpenBlock
    ensures { result ≡ with_catch block body name }
{
    match block {
        OpenBlock::Try => OpenBlock::Catch { body, name },
        other => other,
    }
}

/// The block after its `else`, if it is an `if`.
fn with_else(block: OpenBlock, then: Row) -> OpenBlock
    ensures { result ≡ with_else block then }
{
    match block {
        OpenBlock::Then { left, right } => OpenBlock::Else { left, right, then },
        other => other,
    }
}

/// The block with one more step line, if it is a steps block.
fn with_step(block: OpenBlock, step: StepLine) -> Result<OpenBlock, AllocError>
    ensures { IfOk result (StepAdded step block) }
{
    match block {
        OpenBlock::Steps { target, mut lines } => {
            lines.push(step)?;
            Ok(OpenBlock::Steps { target, lines })
        }
        other => Ok(other),
    }
}

impl Builder {
    /// Puts a statement after those of the innermost list.
    fn add(&mut self, statement: Statement) -> Result<(), AllocError>
        requires lower { IsLowerStatement self.old.nodes (length self.old.nodes.statements) statement }
        requires body { IsBodyLower self.old.nodes (length self.old.nodes.statements) statement }
        requires room { entries self.old.nodes + 1 ≤ u32.MAX }
        ensures added { OnOk result (IsAdded statement self.old self.new) }
        ensures paid { weight self.new ≤ weight self.old + 2 }
    {
        let place = self.nodes.put_statement(statement)?;
        self.places.push(place)?;
        Ok(())
    }

    /// Opens a block that has a list of statements.
    #[tactic(auto, using(crate::proofs::Room::waiting_push))]
    fn open(&mut self, alloc: Global, block: OpenBlock) -> Result<(), AllocError>
        ensures opened { OnOk result (IsOpened block self.old self.new) }
        ensures paid { weight self.new ≤ weight self.old }
    {
        let before = mem::replace(&mut self.places, Vec::new(alloc));
        self.frames.push(Frame { block, before })?;
        Ok(())
    }

    /// Binds the name of a `let`.
    fn bind(&mut self, statement: Statement) -> Result<(), AllocError>
        ensures names { OnOk result (self.new.names ≡ bound_by statement self.old.names) }
        ensures nodes { self.new.nodes ≡ self.old.nodes }
        ensures frames { self.new.frames.items ≡ self.old.frames.items }
        ensures places { self.new.places.items ≡ self.old.places.items }
    {
        match statement {
            Statement::Let { name, value: _ } => self.names.put(name),
            _ => Ok(()),
        }
    }

    /// Whether the innermost block is a steps block.
    fn is_in_steps(&self) -> bool
        ensures { result ≡ is_in_steps (stack_of self.now) }
    {
        match self.frames.last() {
            Some(frame) => matches!(frame.block, OpenBlock::Steps { .. }),
            None => false,
        }
    }

    /// The end of the lines after a `catch`.
    fn end_catch(&mut self, body: Row, name: u32, before: Vec<u32>) -> Result<(), AllocError>
        requires places { AllStatements self.old.nodes self.old.places.items }
        requires body { IsLowerRow (length self.old.nodes.statements) body }
        requires name { IsName self.old.nodes name }
        requires room { weight self.old + length before.items + 2 ≤ u32.MAX }
        ensures closed { OnOk result (IsClosed (tried_tree body name self.old.places.items) before.items self.old self.new) }
        ensures paid { weight self.new ≤ weight self.old + length before.items + 2 }
    {
        let handler = self.nodes.put_statements(&self.places)?;
        self.places = before;
        self.add(Statement::Try {
            body,
            name,
            handler,
        })
    }

    /// The end of an `if` without an `else`.
    fn end_then(&mut self, left: u32, right: u32, before: Vec<u32>) -> Result<(), AllocError>
        requires places { AllStatements self.old.nodes self.old.places.items }
        requires left { IsExpression self.old.nodes left }
        requires right { IsExpression self.old.nodes right }
        requires room { weight self.old + length before.items + 2 ≤ u32.MAX }
        ensures closed { OnOk result (IsClosed (then_tree left right self.old.places.items) before.items self.old self.new) }
        ensures paid { weight self.new ≤ weight self.old + length before.items + 2 }
    {
        let then = self.nodes.put_statements(&self.places)?;
        self.places = before;
        self.add(Statement::If {
            left,
            right,
            then,
            otherwise: Row { first: 0, count: 0 },
        })
    }

    /// The end of the lines after an `else`.
    fn end_else(
        &mut self,
        left: u32,
        right: u32,
        then: Row,
        before: Vec<u32>,
    ) -> Result<(), AllocError>
        requires places { AllStatements self.old.nodes self.old.places.items }
        requires left { IsExpression self.old.nodes left }
        requires right { IsExpression self.old.nodes right }
        requires met { IsLowerRow (length self.old.nodes.statements) then }
        requires room { weight self.old + length before.items + 2 ≤ u32.MAX }
        ensures closed { OnOk result (IsClosed (else_tree left right then self.old.places.items) before.items self.old self.new) }
        ensures paid { weight self.new ≤ weight self.old + length before.items + 2 }
    {
        let otherwise = self.nodes.put_statements(&self.places)?;
        self.places = before;
        self.add(Statement::If {
            left,
            right,
            then,
            otherwise,
        })
    }

    /// The end of a function.
    fn end_function(
        &mut self,
        head: FunctionHead,
        outer: LocalNames,
        before: Vec<u32>,
    ) -> Result<(), AllocError>
        requires places { AllStatements self.old.nodes self.old.places.items }
        requires name { IsName self.old.nodes head.name }
        requires params { All (IsName self.old.nodes) head.params }
        requires names { All (IsName self.old.nodes) self.old.names }
        requires room { weight self.old + length before.items + 3 ≤ u32.MAX }
        ensures closed { OnOk result (IsFunctionClosed head outer before.items self.old self.new) }
        ensures paid { weight self.new ≤ weight self.old + length before.items + 3 }
    {
        let body = self.nodes.put_statements(&self.places)?;
        self.places = before;
        let names = mem::replace(&mut self.names, outer);
        let FunctionHead { name, params } = head;
        let function = Function {
            name,
            params,
            names,
            body,
        };
        let number = self.nodes.put_function(function)?;
        self.add(Statement::Function(number))
    }

    /// The end of a steps block.
    fn end_steps(&mut self, target: Target, lines: StepLines) -> Result<(), AllocError>
        requires room { weight self.old + 3 ≤ u32.MAX }
        ensures closed { OnOk result (IsClosed (steps_tree target lines) self.old.places.items self.old self.new) }
        ensures paid { weight self.new ≤ weight self.old + 3 }
    {
        let number = self.nodes.put_steps(StepsBlock { target, lines })?;
        self.add(Statement::Steps(number))
    }

    /// A statement of one line.
    fn statement_line(&mut self, reader: &mut Reader<'_, '_>) -> Result<(), AllocError>
        requires sound { Sound self.old }
        requires outside { is_in_steps (stack_of self.old) ≡ false }
        requires other { is_block_word (terminal_ahead reader.old) ≡ false }
        requires room { HasLineRoom self.old reader.old }
        ensures done { OnOk result (IsDone self.old self.new reader.old) }
        ensures paid { PaysLine self.old self.new reader.old }
    {
        let statement = self.nodes.statement_line(reader)?;
        self.bind(statement)?;
        self.add(statement)
    }

    /// `try`.
    fn try_line(&mut self, alloc: Global, reader: &mut Reader<'_, '_>) -> Result<(), AllocError>
        requires sound { Sound self.old }
        requires begins { terminal_ahead reader.old ≡ terminal.Try }
        requires room { HasLineRoom self.old reader.old }
        ensures done { OnOk result (IsDone self.old self.new reader.old) }
        ensures paid { PaysLine self.old self.new reader.old }
    {
        reader.take();
        self.open(alloc, OpenBlock::Try)
    }

    /// `if` with the two expressions that it compares.
    fn if_line(&mut self, alloc: Global, reader: &mut Reader<'_, '_>) -> Result<(), AllocError>
        requires sound { Sound self.old }
        requires begins { terminal_ahead reader.old ≡ terminal.If }
        requires room { HasLineRoom self.old reader.old }
        ensures done { OnOk result (IsDone self.old self.new reader.old) }
        ensures paid { PaysLine self.old self.new reader.old }
    {
        reader.take();
        let (left, right) = self.nodes.if_head(reader)?;
        self.open(alloc, OpenBlock::Then { left, right })
    }

    /// `function` with its name and its parameters.
    fn function_line(
        &mut self,
        alloc: Global,
        reader: &mut Reader<'_, '_>,
    ) -> Result<(), AllocError>
        requires sound { Sound self.old }
        requires begins { terminal_ahead reader.old ≡ terminal.Function }
        requires room { HasLineRoom self.old reader.old }
        ensures done { OnOk result (IsDone self.old self.new reader.old) }
        ensures paid { PaysLine self.old self.new reader.old }
    {
        reader.take();
        let head = self.nodes.function_head(reader)?;
        let names = local_params(alloc, &head.params)?;
        let outer = mem::replace(&mut self.names, names);
        self.open(alloc, OpenBlock::Function { head, outer })
    }

    /// `steps` with its target.
    #[tactic(auto, using(crate::proofs::Room::waiting_push))]
    fn steps_line(&mut self, alloc: Global, reader: &mut Reader<'_, '_>) -> Result<(), AllocError>
        requires sound { Sound self.old }
        requires begins { terminal_ahead reader.old ≡ terminal.Steps }
        requires room { HasLineRoom self.old reader.old }
        ensures done { OnOk result (IsDone self.old self.new reader.old) }
        ensures paid { PaysLine self.old self.new reader.old }
    {
        reader.take();
        let target = reader.target()?;
        self.frames.push(Frame {
            block: OpenBlock::Steps {
                target,
                lines: Items::new(alloc),
            },
            before: Vec::new(alloc),
        })?;
        Ok(())
    }

    /// `catch` with a name.
    #[tactic(auto, using(crate::proofs::Room::waiting_push))]
    fn catch_line(&mut self, alloc: Global, reader: &mut Reader<'_, '_>) -> Result<(), AllocError>
        requires sound { Sound self.old }
        requires begins { terminal_ahead reader.old ≡ terminal.Catch }
        requires room { HasLineRoom self.old reader.old }
        ensures done { OnOk result (IsDone self.old self.new reader.old) }
        ensures paid { PaysLine self.old self.new reader.old }
    {
        reader.take();
        let name = self.nodes.name_number(reader)?;
        let body = self.nodes.put_statements(&self.places)?;
        self.places = Vec::new(alloc);
        match self.frames.pop() {
            Some(frame) => {
                self.names.put(name)?;
                self.frames.push(Frame {
                    block: with_catch(frame.block, body, name),
                    before: frame.before,
                })?;
                Ok(())
            }
            None => Ok(()),
        }
    }

    /// `else`.
    #[tactic(auto, using(crate::proofs::Room::waiting_push))]
    fn else_line(&mut self, alloc: Global, reader: &mut Reader<'_, '_>) -> Result<(), AllocError>
        requires sound { Sound self.old }
        requires begins { terminal_ahead reader.old ≡ terminal.Else }
        requires room { HasLineRoom self.old reader.old }
        ensures done { OnOk result (IsDone self.old self.new reader.old) }
        ensures paid { PaysLine self.old self.new reader.old }
    {
        reader.take();
        let then = self.nodes.put_statements(&self.places)?;
        self.places = Vec::new(alloc);
        match self.frames.pop() {
            Some(frame) => {
                self.frames.push(Frame {
                    block: with_else(frame.block, then),
                    before: frame.before,
                })?;
                Ok(())
            }
            None => Ok(()),
        }
    }

    /// A line of the innermost steps block.
    #[tactic(auto, using(crate::proofs::Room::waiting_push))]
    fn step_line(&mut self, reader: &mut Reader<'_, '_>) -> Result<(), AllocError>
        requires sound { Sound self.old }
        requires inside { is_in_steps (stack_of self.old) ≡ true }
        requires other { is_block_word (terminal_ahead reader.old) ≡ false }
        requires room { HasLineRoom self.old reader.old }
        ensures done { OnOk result (IsDone self.old self.new reader.old) }
        ensures paid { PaysLine self.old self.new reader.old }
    {
        let step = reader.step_line()?;
        match self.frames.pop() {
            Some(frame) => {
                self.frames.push(Frame {
                    block: with_step(frame.block, step)?,
                    before: frame.before,
                })?;
                Ok(())
            }
            None => Ok(()),
        }
    }

    /// The end of the block of a frame that was taken off the stack.
    fn close(&mut self, frame: Frame) -> Result<(), AllocError>
        requires sound { Sound self.old }
        requires frame { IsSoundFrame self.old.nodes frame }
        requires room { weight self.old + length frame.before.items + 3 ≤ u32.MAX }
        ensures closed { OnOk result (FrameClosed frame self.old self.new) }
        ensures paid { weight self.new ≤ weight self.old + length frame.before.items + 3 }
    {
        let Frame { block, before } = frame;
        match block {
            OpenBlock::Try => {
                self.places = before;
                Ok(())
            }
            OpenBlock::Catch { body, name } => self.end_catch(body, name, before),
            OpenBlock::Then { left, right } => self.end_then(left, right, before),
            OpenBlock::Else { left, right, then } => { self.end_else(left, right, then, before) }
            OpenBlock::Function { head, outer } => self.end_function(head, outer, before),
            OpenBlock::Steps { target, lines } => self.end_steps(target, lines),
        }
    }

    /// `end`.
    #[tactic(auto, using(crate::proofs::Room::waiting_push))]
    fn end_line(&mut self, reader: &mut Reader<'_, '_>) -> Result<(), AllocError>
        requires sound { Sound self.old }
        requires begins { terminal_ahead reader.old ≡ terminal.End }
        requires room { HasLineRoom self.old reader.old }
        ensures done { OnOk result (IsDone self.old self.new reader.old) }
        ensures paid { PaysLine self.old self.new reader.old }
    {
        reader.take();
        match self.frames.pop() {
            Some(frame) => self.close(frame),
            None => Ok(()),
        }
    }

    /// The first line of a block, its `catch` or `else`, or its `end`.
    fn block_line(
        &mut self,
        alloc: Global,
        word: BlockWord,
        reader: &mut Reader<'_, '_>,
    ) -> Result<(), AllocError>
        requires sound { Sound self.old }
        requires begins { terminal_ahead reader.old ≡ block_terminal word }
        requires room { HasLineRoom self.old reader.old }
        ensures done { OnOk result (IsDone self.old self.new reader.old) }
        ensures paid { PaysLine self.old self.new reader.old }
    {
        match word {
            BlockWord::Try => self.try_line(alloc, reader),
            BlockWord::Catch => self.catch_line(alloc, reader),
            BlockWord::If => self.if_line(alloc, reader),
            BlockWord::Else => self.else_line(alloc, reader),
            BlockWord::Function => self.function_line(alloc, reader),
            BlockWord::Steps => self.steps_line(alloc, reader),
            BlockWord::End => self.end_line(reader),
        }
    }

    /// Reads a line.
    ///
    /// # Errors
    ///
    /// `AllocError` where there is no memory.
    pub(crate) fn read_line(
        &mut self,
        alloc: Global,
        line: &LineWords<'_>,
    ) -> Result<(), AllocError>
        requires sound { Sound self.old }
        requires room { HasLineRoom self.old (map lexeme_of line.now.words.items) }
        ensures sound { OnOk result (Sound self.new) }
        ensures grown { OnOk result (Grown self.old.nodes self.new.nodes) }
        ensures read { OnOk result (LineRead self.old self.new (map lexeme_of line.now.words.items)) }
        ensures paid { PaysLine self.old self.new (map lexeme_of line.now.words.items) }
    {
        let mut reader = Reader::new(alloc, &line.words);
        match block_word_of(reader.ahead()) {
            Some(word) => self.block_line(alloc, word, &mut reader),
            None => {
                if self.is_in_steps() {
                    self.step_line(&mut reader)
                } else {
                    self.statement_line(&mut reader)
                }
            }
        }
    }
}
