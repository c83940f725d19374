//! The modules of a text.

ghost use Rattle.std.specs.Prelude.{◌≡◌, ◌∷◌, [], true, false, map, Some, None, IfOk, MatchOption, IsErrOf};
ghost use Rattle.quartz_tree.specs.declared.place.Place.{Place};
ghost use Rattle.quartz_tree.specs.Surfaces.{module_tree};
ghost use Rattle.quartz_lexer.specs.Lexing.{lexemes, AreTokensOf};
ghost use Rattle.quartz_parser.specs.Parsing.{DerivesModule, DerivesText, HasModule, HasText, Breaks, HasOneModule, HasOneText};
ghost use Rattle.quartz_parser.specs.Machine.{several, ended};
ghost use Rattle.quartz_parser.specs.ReaderViews.{left_by, IsLast};
ghost use Rattle.quartz_parser.specs.Reading.{Ends, StopsAt};

use crate::decode::read_item;
use crate::fault::ParseFault;
use crate::marks::Marks;
use crate::reader::{Control, End, Reader, Rest, end_reading, fresh, take};
use quartz_lexer::Tokens;
use quartz_tree::{Module, NoMemory};
use std::alloc::Global;

/// What was read of all tokens.
#[derive(Drop)]
pub struct Reached {
    pub end: End,
    pub reader: Reader,
}

fn read(alloc: Global, many: bool, tokens: &Tokens, text: &[u8]) -> Result<Reached, ParseFault>
    requires { AreTokensOf text.now tokens.now }
    ensures ended { IfOk result (λ r. Ends many (lexemes text.now tokens.now.items.items) r) }
    ensures broken { (p : Place) → IsErrOf result (ParseFault.S2 p) →
        StopsAt many (lexemes text.now tokens.now.items.items) p }
{
    let mut reader = fresh(alloc)?;
    let mut control = Control {
        marks: Marks::Zero,
        rest: Rest::Between,
    };
    for token in &tokens.items {
        let item = read_item(token, text);
        match take(alloc, many, control, item, token.place, &mut reader)? {
            Some(next) => control = next,
            None => return Err(ParseFault::S2(token.place)),
        }
    }
    let end = end_reading(alloc, many, control, &mut reader)?;
    Ok(Reached { end, reader })
}

fn alone(end: End) -> Option<Module>
    requires { IsLast end }
    ensures { (r : Reader) → MatchOption result (left_by false end r ≡ None) (λ m.
        left_by false end r ≡ Some (module_tree m ∷ [])) }
{
    match end {
        End::Module(module) => Some(module),
        _ => None,
    }
}

fn all(alloc: Global, end: End, reader: Reader) -> Result<Option<Vec<Module>>, NoMemory>
    requires { IsLast end }
    ensures { IfOk result (λ o. MatchOption o (left_by true end reader ≡ None) (λ ms.
        left_by true end reader ≡ Some (map module_tree ms.items))) }
{
    match end {
        End::Module(module) => {
            let mut modules = Vec::new(alloc);
            modules.push(module)?;
            Ok(Some(modules))
        }
        End::Modules => Ok(some(reader.modules)),
        _ => Ok(None),
    }
}

// The modules, where there is one.
fn some(modules: Vec<Module>) -> Option<Vec<Module>>
    ensures { MatchOption result (ended (several (map module_tree modules.items)) ≡ None) (λ ms.
        ended (several (map module_tree modules.items)) ≡ Some (map module_tree ms.items)) }
{
    if modules.is_empty() {
        None
    } else {
        Some(modules)
    }
}

/// The syntax tree of a text that is one module, in time linear in the text.
///
/// Where memory is refused, any tokens may answer [`ParseFault::NoMemory`].
#[tactic(auto, using(crate::proofs::Agreement::one_module))]
pub fn parse(alloc: Global, tokens: &Tokens, text: &[u8]) -> Result<Module, ParseFault>
    requires { AreTokensOf text.now tokens.now }
    ensures derived { IfOk result (λ m.
        DerivesModule (lexemes text.now tokens.now.items.items) (module_tree m)) }
    ensures broken { (p : Place) → IsErrOf result (ParseFault.S2 p) →
        Breaks HasModule (lexemes text.now tokens.now.items.items) tokens.now.end p }
    ensures law { HasOneModule (lexemes text.now tokens.now.items.items) }
{
    let reached = match read(alloc, false, tokens, text) {
        Ok(reached) => reached,
        Err(fault) => return Err(fault),
    };
    match alone(reached.end) {
        Some(module) => Ok(module),
        None => Err(ParseFault::S2(tokens.end)),
    }
}

/// The syntax trees of the modules of a text, in time linear in the text.
///
/// Where memory is refused, any tokens may answer [`ParseFault::NoMemory`].
#[tactic(auto, using(crate::proofs::Agreement::one_text))]
pub fn parse_text(alloc: Global, tokens: &Tokens, text: &[u8]) -> Result<Vec<Module>, ParseFault>
    requires { AreTokensOf text.now tokens.now }
    ensures derived { IfOk result (λ ms.
        DerivesText (lexemes text.now tokens.now.items.items) (map module_tree ms.items)) }
    ensures broken { (p : Place) → IsErrOf result (ParseFault.S2 p) →
        Breaks HasText (lexemes text.now tokens.now.items.items) tokens.now.end p }
    ensures law { HasOneText (lexemes text.now tokens.now.items.items) }
{
    let reached = match read(alloc, true, tokens, text) {
        Ok(reached) => reached,
        Err(fault) => return Err(fault),
    };
    match all(alloc, reached.end, reached.reader)? {
        Some(modules) => Ok(modules),
        None => Err(ParseFault::S2(tokens.end)),
    }
}
