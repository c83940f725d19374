//! Rows of texts and their tokens.

use quartz_lexer::lex;
use std::alloc::Global;
use std::test::Fail;
use test_rows::{bytes_of, spread, value_of};

// The tokens are `Kind text line:col; ..`, then the place behind the text; or the rule that the
// text breaks.
const ROWS: &str = r#"tokens: 1:1

text: \x20\t\r\n
tokens: 2:1

# comments
text: /* x
tokens: S1 at 1:1

text: /*/
tokens: S1 at 1:1

text: a\n /*/ b
tokens: S1 at 2:2

text: /**/x
tokens: Name x 1:5; 1:6

text: /***/x
tokens: Name x 1:6; 1:7

text: /*/*/x
tokens: Name x 1:6; 1:7

text: /* /* */ */
tokens: Sign * 1:10; Sign / 1:11; 1:12

text: a // b
tokens: Name a 1:1; 1:7

text: a//\nb
tokens: Name a 1:1; Name b 2:1; 2:2

text: //\x7f\xc8\n/*\xff\n*/x
tokens: Name x 3:3; 3:4

text: / /
tokens: Sign / 1:1; Sign / 1:3; 1:4

text: a/b
tokens: Name a 1:1; Sign / 1:2; Name b 1:3; 1:4

# bytes that begin no token
text: a \x7f
tokens: S1 at 1:3

text: \xc8
tokens: S1 at 1:1

text: a\n b~
tokens: S1 at 2:3

text: a.b
tokens: S1 at 1:2

text: \x00
tokens: S1 at 1:1

text: \x0c
tokens: S1 at 1:1

text: #\n/*
tokens: S1 at 1:1

# the longest match
text: <->
tokens: Sign <-> 1:1; 1:4

text: <-
tokens: Sign < 1:1; Sign - 1:2; 1:3

text: <- >
tokens: Sign < 1:1; Sign - 1:2; Sign > 1:4; 1:5

text: ->
tokens: Sign -> 1:1; 1:3

text: -->
tokens: Sign - 1:1; Sign -> 1:2; 1:4

text: <=
tokens: Sign <= 1:1; 1:3

text: <<=>=>
tokens: Sign < 1:1; Sign <= 1:2; Sign >= 1:4; Sign > 1:6; 1:7

text: = =
tokens: Sign = 1:1; Sign = 1:3; 1:4

text: ===
tokens: Sign == 1:1; Sign = 1:3; 1:4

text: !!=
tokens: Sign ! 1:1; Sign != 1:2; 1:4

text: |||
tokens: Sign || 1:1; Sign | 1:3; 1:4

text: (){}[],;:?+*%&^@
tokens: Sign ( 1:1; Sign ) 1:2; Sign { 1:3; Sign } 1:4; Sign [ 1:5; Sign ] 1:6; Sign , 1:7; Sign ; 1:8; Sign : 1:9; Sign ? 1:10; Sign + 1:11; Sign * 1:12; Sign % 1:13; Sign & 1:14; Sign ^ 1:15; Sign @ 1:16; 1:17

text: 0b101
tokens: Bits 0b101 1:1; 1:6

text: 0b
tokens: Number 0 1:1; Name b 1:2; 1:3

text: 0b12
tokens: Bits 0b1 1:1; Number 2 1:4; 1:5

text: 00b1
tokens: Number 00 1:1; Name b1 1:3; 1:5

text: x1
tokens: Name x1 1:1; 1:3

text: 1x
tokens: Number 1 1:1; Name x 1:2; 1:3

text: _If if ifx
tokens: Name _If 1:1; Keyword if 1:5; Name ifx 1:8; 1:11

text: a\r\n b\r\n
tokens: Name a 1:1; Name b 2:2; 3:1

# the length of numbers
text: 12345678901234567890123456789012345678
tokens: Number 12345678901234567890123456789012345678 1:1; 1:39

text: \x20123456789012345678901234567890123456789
tokens: S1 at 1:2

text: 0b1234567890123456789012345678901234567890
tokens: S1 at 1:4

text: bv2nat nat2bv bv nat int bool mem event module nothing pause halt await immediate
tokens: Keyword bv2nat 1:1; Keyword nat2bv 1:8; Keyword bv 1:15; Keyword nat 1:18; Keyword int 1:22; Keyword bool 1:26; Keyword mem 1:31; Keyword event 1:35; Keyword module 1:41; Keyword nothing 1:48; Keyword pause 1:56; Keyword halt 1:62; Keyword await 1:67; Keyword immediate 1:73; 1:82

text: weak abort suspend when emit next else loop always while do true false
tokens: Keyword weak 1:1; Keyword abort 1:6; Keyword suspend 1:12; Keyword when 1:20; Keyword emit 1:25; Keyword next 1:30; Keyword else 1:35; Keyword loop 1:40; Keyword always 1:45; Keyword while 1:52; Keyword do 1:58; Keyword true 1:61; Keyword false 1:66; 1:71

# the greatest length
text: «\n × 65536»
tokens: 65537:1

text: «\n × 65537»
tokens: S1 at 1:1

text: «  × 65536»
tokens: 1:65537

text: «  × 65537»
tokens: S1 at 1:1

text: «1 × 65536»
tokens: S1 at 1:1

text: «1 × 65537»
tokens: S1 at 1:1"#;

// The tokens of a text as the rows have them.
fn tokens_of(alloc: Global, text: &[u8]) -> Result<String, Fail> {
    let tokens = match lex(alloc, text) {
        Ok(tokens) => tokens,
        Err(fault) => return Ok(format!(in alloc; "{fault}")?),
    };
    let mut out = String::new(alloc);
    for token in &tokens.items {
        let word = str::from_utf8(&text[token.start as usize..token.end as usize])?;
        let (kind, line, col) = (token.kind, token.place.line, token.place.col);
        out.push_str(format!(in alloc; "{kind:?} {word} {line}:{col}; ")?.as_str())?;
    }
    let (line, col) = (tokens.end.line, tokens.end.col);
    out.push_str(format!(in alloc; "{line}:{col}")?.as_str())?;
    Ok(out)
}

#[test]
fn tokens(rt: HostRuntime) -> Result<(), Fail> {
    let alloc = rt.alloc();
    for row in ROWS.split("\n\n") {
        let text = bytes_of(alloc, &spread(alloc, value_of(row, "text"))?)?;
        let found = tokens_of(alloc, &text)?;
        assert_eq!(rt; found.as_str(), value_of(row, "tokens"), "{row}");
    }
    Ok(())
}
