//! Members.

ghost use Rattle.std.specs.Prelude.{◌≡◌, ◌≤◌, ◌<◌, [], IfOk, OnOk, MatchOption, length, true};
ghost use Rattle.widl_lines.specs.declared.grammar.Rule.TheVariants as rule;
ghost use Rattle.widl_lines.specs.declared.grammar.Terminal.TheVariants as terminal;
ghost use Rattle.widl_script_tree.specs.Tables.{expression_at};
ghost use Rattle.widl_script_reader.specs.declared.forms.Link.TheVariants as link;
ghost use Rattle.widl_script_reader.specs.ReadExpressions.{Widens, Continues, link_part, link_terminal, ends_member, is_member, HoldsMember};
ghost use Rattle.widl_script_words.specs.Reading.{part, terminal_ahead, Never};
ghost use Rattle.widl_script_reader.specs.Room.{HasRoom, Pays};

use crate::forms::{Link, ends_member, link_of};
use crate::nodes::Nodes;
use std::alloc::AllocError;
use widl_script_tree::{Expression, MemberKey, MemberOf};
use widl_script_words::Reader;

impl Nodes {
    /// A member behind a dot.
    fn dot_member(&mut self, reader: &mut Reader<'_, '_>, of: u32) -> Result<u32, AllocError>
        requires begins { terminal_ahead reader.old ≡ terminal.Dot }
        requires within { of < length self.old.expressions }
        requires room { HasRoom 0 self.old reader.old }
        ensures grown { OnOk result (Widens self.old self.new) }
        ensures tree { IfOk result (λ place. Continues (link_part link.Dot) self.new of place reader.old reader.new) }
        ensures member { IfOk result (λ place. is_member (expression_at self.new place) ≡ true) }
        ensures shorter { OnOk result (length reader.new < length reader.old) }
        ensures paid { Pays 0 self.old reader.old self.new reader.new }
    {
        reader.take();
        let number = self.name_number(reader)?;
        let key = MemberKey::Named(number);
        self.put(Expression::Member(MemberOf { of, key }))
    }

    /// A member in brackets.
    #[cycle(expression)]
    fn index_member(&mut self, reader: &mut Reader<'_, '_>, of: u32) -> Result<u32, AllocError>
        requires begins { terminal_ahead reader.old ≡ terminal.OpenBracket }
        requires within { of < length self.old.expressions }
        requires room { HasRoom 0 self.old reader.old }
        ensures grown { OnOk result (Widens self.old self.new) }
        ensures tree { IfOk result (λ place. Continues (link_part link.Bracket) self.new of place reader.old reader.new) }
        ensures member { IfOk result (λ place. is_member (expression_at self.new place) ≡ true) }
        ensures shorter { OnOk result (length reader.new < length reader.old) }
        ensures paid { Pays 0 self.old reader.old self.new reader.new }
    {
        reader.take();
        let key = MemberKey::Computed(self.expression(reader)?);
        reader.take();
        self.put(Expression::Member(MemberOf { of, key }))
    }

    /// What goes on behind the expression at the place.
    #[cycle(expression)]
    pub(crate) fn follow_link(
        &mut self,
        reader: &mut Reader<'_, '_>,
        place: u32,
        link: Link,
    ) -> Result<u32, AllocError>
        requires begins { terminal_ahead reader.old ≡ link_terminal link }
        requires within { place < length self.old.expressions }
        requires room { HasRoom 0 self.old reader.old }
        ensures grown { OnOk result (Widens self.old self.new) }
        ensures tree { IfOk result (λ next. Continues (link_part link) self.new place next reader.old reader.new) }
        ensures member { IfOk result (λ next. ends_member link ≡ true → is_member (expression_at self.new next) ≡ true) }
        ensures shorter { OnOk result (length reader.new < length reader.old) }
        ensures paid { Pays 0 self.old reader.old self.new reader.new }
    {
        match link {
            Link::Dot => self.dot_member(reader, place),
            Link::Bracket => self.index_member(reader, place),
            Link::Paren => self.call(reader, place),
        }
    }

    /// An expression that ends in a member; none where no such words are.
    pub(crate) fn member(
        &mut self,
        reader: &mut Reader<'_, '_>,
    ) -> Result<Option<MemberOf>, AllocError>
        requires room { HasRoom 2 self.old reader.old }
        ensures grown { OnOk result (Widens self.old self.new) }
        ensures some { OnOk result (0 < length self.new.expressions) }
        ensures tree { IfOk result (λ r. MatchOption r (Never (part rule.Member) reader.old) (λ m. HoldsMember self.new m reader.old reader.new)) }
        ensures shorter { OnOk result (length reader.new ≤ length reader.old) }
        ensures paid { Pays 2 self.old reader.old self.new reader.new }
    {
        let mut place = self.primary(reader)?;
        let mut ended = false;
        'links: while let Some(link) = link_of(reader.ahead()) {
            place = self.follow_link(reader, place, link)?;
            ended = ends_member(link);
        }
        if ended {
            return Ok(self.member_at(place));
        }
        Ok(None)
    }
}
