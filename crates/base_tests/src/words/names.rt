use sp_words::{is_name, is_reserved};

/// Each line: a text, whether it is a name, and whether it is a word of the language.
const TEXTS: &str = "x yes no
a_1 yes no
Z9_ yes no
val yes yes
Stream yes yes
store yes yes
FixPt yes yes
gather yes no
enq yes no
to yes no
vals yes no
_x no no
9a no no
a-b no no
a.b no no
ä no no";

#[test]
fn names_are_told_from_words_of_the_language(rt: HostRuntime) {
    for line in TEXTS.lines() {
        let mut fields = line.split(' ');
        let text = fields.next().unwrap_or("");
        let name = if is_name(text) { "yes" } else { "no" };
        let reserved = if is_reserved(text) { "yes" } else { "no" };
        assert_eq!(rt; fields.next().unwrap_or(""), name, "{text}");
        assert_eq!(rt; fields.next().unwrap_or(""), reserved, "{text}");
    }
    assert!(rt; !is_name(""));
}
