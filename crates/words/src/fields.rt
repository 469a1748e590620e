// The fields of each word. What reads takes a part of a word list that begins at the element, token, fact or parse asked about, and is
// total: a word that is not there counts as 0.
ghost use Rattle.std.specs.Prelude.{◌≡◌, eqb};
ghost use Rattle.words.specs.Fields.{kind_number, word_of, word_at, kind_at, value_at, is_a_node, is_a_token, syntax_kind, size_of, start_of, end_of, fact_sort, fact_element};

// What a word is, by its top four bits.
#[derive(Clone, Copy)]
pub enum WordKind {
    Node = 1,
    Token = 2,
    Start = 3,
    End = 4,
    EditStart = 5,
    EditEnd = 6,
    EditLength = 7,
    Parse = 8,
    Fact = 9,
    Value = 10,
}

impl WordKind {
    // The word of this kind whose value is the low 28 bits of a number.
    pub fn word(self, n: u32) -> u32
        ensures { result ≡ word_of (kind_number self) n }
    {
        self as u32 * 0x1000_0000 + n % 0x1000_0000
    }
}

// Word i of a part, 0 past its end.
pub fn word(c: &[u32], i: usize) -> u32
    ensures { result ≡ word_at c.now i }
{
    c.get(i).copied().unwrap_or(0)
}

// Whether word i is of a kind.
pub fn has_kind(c: &[u32], i: usize, kind: WordKind) -> bool
    ensures { result ≡ eqb (kind_at c.now i) (kind_number kind) }
{
    word(c, i) / 0x1000_0000 == kind as u32
}

// The value of word i; of a fact, its values are 1 to 3.
pub fn value(c: &[u32], i: usize) -> u32
    ensures { result ≡ value_at c.now i }
{
    word(c, i) % 0x1000_0000
}

// Whether the element is a node.
pub fn is_node(c: &[u32]) -> bool
    ensures { result ≡ is_a_node c.now }
{
    has_kind(c, 0, WordKind::Node)
}

// Whether the element is a token.
pub fn is_token(c: &[u32]) -> bool
    ensures { result ≡ is_a_token c.now }
{
    has_kind(c, 0, WordKind::Token)
}

// The syntax kind of an element or of a token list's token, or a parse's template root kind.
pub fn syntax_kind(c: &[u32]) -> u32
    ensures { result ≡ syntax_kind c.now }
{
    value(c, 0) / 0x1_0000
}

// An element's subtree size in elements, the length in bytes of a token list's token, or how many node ranges a parse has.
pub fn size(c: &[u32]) -> usize
    ensures { result ≡ size_of c.now }
{
    (value(c, 0) % 0x1_0000) as usize
}

// The start byte of an element, or of a parse's text.
pub fn start(c: &[u32]) -> usize
    ensures { result ≡ start_of c.now }
{
    value(c, 1) as usize
}

// The end byte of an element, or of a parse's text.
pub fn end(c: &[u32]) -> usize
    ensures { result ≡ end_of c.now }
{
    value(c, 2) as usize
}

// A fact's sort.
pub fn fact_sort(c: &[u32]) -> u32
    ensures { result ≡ fact_sort c.now }
{
    value(c, 0) / 0x100_0000
}

// A fact's element.
pub fn fact_element(c: &[u32]) -> usize
    ensures { result ≡ fact_element c.now }
{
    (value(c, 0) % 0x100_0000) as usize
}
