//! The tokens of the longest text.

use pl0_parser::tokenize;

/// A text of the greatest length has as many tokens as bytes may make.
#[test]
fn tokens_of_the_longest_text(rt: HostRuntime) {
    let text = vec![in rt.alloc(); b'.'; 65536].expect(&rt, "memory");
    let (tokens, end) = tokenize(rt.alloc(), &text).expect(&rt, "tokens");
    assert_eq!(rt; (tokens.len(), end.line, end.column), (65536, 1, 65537));
}
