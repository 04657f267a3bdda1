// The words that tokens say.
ghost use Rattle.std.specs.Prelude.{◌≡◌, IfOk};
ghost use Rattle.pg_lex.specs.declared.token.TokenKind.TheVariants.{Reserved, Whole, Symbol as SymbolKind};
ghost use Rattle.pg_lex.specs.Spelling.{IsReserved, IsSymbol, IsWhole};
ghost use Rattle.pg_lex.specs.Tokens.{IsTokenIn, AreTokensOf, spelling_of};
ghost use Rattle.pg_parse.specs.Filters.{word_says, symbol_says, Says, Say};

use crate::op::Op;
use crate::word::{Mark, Word};
use pg_bytes::Text;
use pg_lex::{ReservedWord, Symbol, Token, TokenKind, unquoted, whole_of};
use std::alloc::{AllocError, Global};

fn of_reserved(word: ReservedWord) -> Word
    ensures { result ≡ word_says word }
{
    match word {
        ReservedWord::And => Word::Mark(Mark::And),
        ReservedWord::Or => Word::Mark(Mark::Or),
        ReservedWord::Not => Word::Mark(Mark::Not),
        ReservedWord::Between => Word::Mark(Mark::Between),
        ReservedWord::In => Word::Mark(Mark::In),
        ReservedWord::Like => Word::Mark(Mark::Like),
        ReservedWord::Escape => Word::Mark(Mark::Escape),
        ReservedWord::Is => Word::Mark(Mark::Is),
        ReservedWord::Null => Word::Mark(Mark::Null),
        ReservedWord::True => Word::Truth(true),
        ReservedWord::False => Word::Truth(false),
    }
}

fn of_symbol(symbol: Symbol) -> Word
    ensures { result ≡ symbol_says symbol }
{
    match symbol {
        Symbol::Equal => Word::Compared(Op::Equal),
        Symbol::Unequal => Word::Compared(Op::Unequal),
        Symbol::Less => Word::Compared(Op::Less),
        Symbol::LessEqual => Word::Compared(Op::LessEqual),
        Symbol::Greater => Word::Compared(Op::Greater),
        Symbol::GreaterEqual => Word::Compared(Op::GreaterEqual),
        Symbol::Plus => Word::Mark(Mark::Plus),
        Symbol::Minus => Word::Mark(Mark::Minus),
        Symbol::Star => Word::Mark(Mark::Star),
        Symbol::Open => Word::Mark(Mark::Open),
        Symbol::Close => Word::Mark(Mark::Close),
        Symbol::Comma => Word::Mark(Mark::Comma),
    }
}

// A spelling of another kind never comes; Bad stands for it.
fn reserved(spelling: &str) -> Word
    requires { IsReserved spelling.now }
    ensures { Says Reserved spelling.now result }
{
    match ReservedWord::from_spelling(spelling) {
        Some(word) => of_reserved(word),
        None => Word::Bad,
    }
}

fn symbol(spelling: &str) -> Word
    requires { IsSymbol spelling.now }
    ensures { Says SymbolKind spelling.now result }
{
    match Symbol::from_spelling(spelling) {
        Some(symbol) => of_symbol(symbol),
        None => Word::Bad,
    }
}

fn whole(spelling: &str) -> Word
    requires { IsWhole spelling.now }
    ensures { Says Whole spelling.now result }
{
    match whole_of(spelling) {
        Some(whole) => Word::Whole(whole),
        None => Word::Bad,
    }
}

// The word that the token says.
fn word_of(alloc: Global, filter: &str, token: Token) -> Result<Word, AllocError>
    requires { IsTokenIn filter.now token }
    ensures { IfOk result (λ word. Says token.kind (spelling_of filter.now token) word) }
{
    let spelling = token.spelling(filter);
    match token.kind {
        TokenKind::Reserved => Ok(reserved(spelling)),
        TokenKind::Name => Ok(Word::Name(Text::from_str(alloc, spelling)?)),
        TokenKind::Whole => Ok(whole(spelling)),
        TokenKind::Text => Ok(Word::Text(Text::from_string(unquoted(alloc, spelling)?))),
        TokenKind::Symbol => Ok(symbol(spelling)),
        TokenKind::Bad => Ok(Word::Bad),
    }
}

// The words that the tokens say.
pub fn words_of(alloc: Global, filter: &str, tokens: &[Token]) -> Result<Vec<Word>, AllocError>
    requires { AreTokensOf filter.now tokens.now }
    ensures { IfOk result (λ words. Say filter.now tokens.now words.items) }
{
    let mut words = Vec::new(alloc);
    let mut rest = tokens;
    while let Some((token, behind)) = rest.split_first() {
        words.push(word_of(alloc, filter, *token)?)?;
        rest = behind;
    }
    Ok(words)
}
