// The sizes of the tables that are lent from crate to crate. A quantity of the paper that changes is changed
// here and in the rules: in `rules/specs/Bytes.antt`, or in the file of the request that defines it
// (`Settings`, `Batch`, `Printed`); `specs/Sizes.antt` has the sizes for the laws. The places and element
// numbers in these tables have a type each, so that they cannot be confused.
#![tactic(auto)]

// The shortest length that a caller may give names, and the longest.
pub const LEAST_NAME_LENGTH: usize = 8;

pub const MOST_NAME_LENGTH: usize = 32;

// The tokens of a group, the levels of groups, the content tokens of a model; the elements that are open.
pub const GRPCNT: usize = 32;

pub const GRPLVL: usize = 16;

pub const GRPGTCNT: usize = 96;

pub const TAGLVL: usize = 24;

// The bytes of a type file and of a document; the declared elements; the documents of a batch.
pub const TYPE_LIMIT: usize = 32768;

pub const DOCUMENT_LIMIT: usize = 65535;

pub const ELEMENTS: usize = 64;

pub const DOCUMENTS: usize = 200;

// The numbers of an answer.
pub const ANSWER: usize = 6;

// Where one can stand in a content model: at its start, or after one of its places.
pub const POSITIONS: usize = GRPGTCNT + 1;

// The names of a model: of each place where it stands and how long it is.
pub const NAMES: usize = 2 * GRPGTCNT;

// The table of a model: a row for each position, with a cell for each position and one for the required place; behind the rows the
// model as postfix code, at most four numbers for each content token and three for the outermost group.
pub const MODEL_ROW: usize = POSITIONS + 1;

pub const MODEL_ROWS: usize = POSITIONS * MODEL_ROW;

pub const CODE: usize = 4 * GRPGTCNT + 3;

pub const MODEL: usize = MODEL_ROWS + CODE;

// The records of a type: six numbers for each element.
pub const RECORD: usize = 6;

pub const RECORDS: usize = RECORD * ELEMENTS;

// The events: five numbers each. A number stands as four bytes where bytes are lent.
pub const EVENT: usize = 5;

pub const NUMBER: usize = 4;

// How long a name may be for the small program; the numbers that it lends, the events that fit there, the bytes of a line that it prints, at most, and of all lines.
pub const PROGRAM_NAME_LENGTH: usize = 8;

pub const PROGRAM_ROOM: usize = 20480;

pub const PROGRAM_EVENTS: usize = PROGRAM_ROOM / EVENT;

pub const LINE: usize = 72;

pub const PROGRAM_TEXT: usize = LINE * (PROGRAM_EVENTS + 1);

// What has content: the document itself (0), and the elements.
pub const CONTENTS: usize = ELEMENTS + 1;

// The elements by name: a link for each, and a bucket for each length of a name and each first letter, which the lowest five bits of a letter tell.
pub const LETTERS: usize = 32;

pub const INDEX: usize = CONTENTS + LETTERS * MOST_NAME_LENGTH;

// The tables of a type: of each content and position a row of bits, eight in a number, with the required place behind them; of each content and place a
// name and a link; of each content a place for each name, and behind these whether the start may be omitted, the end may be omitted, and the content is a
// model. Where a place names `#PCDATA`, its name is a number that no element has.
pub const LAST_BITS: usize = GRPGTCNT / 8;

pub const REQUIRED: usize = LAST_BITS + 1;

pub const ROW: usize = REQUIRED + 1;

pub const ROWS: usize = CONTENTS * POSITIONS * ROW;

pub const LINK: usize = 2;

pub const PLACES: usize = CONTENTS * POSITIONS * LINK;

pub const PCDATA: usize = 255;

pub const START_OMITTED: usize = CONTENTS;

pub const END_OMITTED: usize = CONTENTS + 1;

pub const HAS_MODEL: usize = CONTENTS + 2;

pub const FACT: usize = CONTENTS + 3;

pub const FACTS: usize = CONTENTS * FACT;

// A required place and the largest place of a name are so much higher where the model has an "&".
pub const RAISE: usize = 128;

// The members of "&" groups: of each content a number for each position and two for each member, four for each group, and behind these one for each group;
// members and groups count from 1. Behind these stand members as bits, eight in a number: those that cannot be nothing, and of each group those that hold it
// and those that are its own or of a group around it. A content is so large that a number which is no group's is read within it.
pub const GROUP: usize = 4;

pub const AND_GROUPS: usize = GRPGTCNT / 2;

// The last place of each group, while they are filled.
pub const LASTS: usize = AND_GROUPS + 1;

// A member that holds a place or a group is so much higher where it can end with that.
pub const ENDING: usize = 128;

pub const REACHES: usize = 3 * POSITIONS + GROUP * (AND_GROUPS + 1);

pub const NEEDED: usize = REACHES + AND_GROUPS + 1;

pub const MEMBER_BITS: usize = GRPGTCNT / 8;

pub const SETS: usize = NEEDED + MEMBER_BITS;

pub const MEMBER: usize = SETS + 2 * MEMBER_BITS * (AND_GROUPS + 1);

pub const MEMBERS: usize = CONTENTS * MEMBER;

// Which members have begun: of the document and of each open element a bit for each content token, in three numbers.
pub const BEGUN_WORDS: usize = 3;

pub const BEGUN: usize = (TAGLVL + 1) * BEGUN_WORDS;

// The attributes of an element: how many there are, and five numbers for each of at most ATTCNT. All positions of a type file fit 16 bits.
pub const ATTCNT: usize = 40;

pub const ATTRIBUTE: usize = 5;

pub const LIST: usize = 1 + ATTCNT * ATTRIBUTE;

// Those of all elements; a type without attributes has none of it.
pub const LISTS: usize = ELEMENTS * LIST;

// The tokens of the name token groups of one list: of each where it stands and how long it is.
pub const TOKENS: usize = 2 * GRPCNT * ATTCNT;

// The attributes that a start tag gives, as they are read: four numbers for each of at most one more than a list has. A further one would be the second of
// its name, or of none of the list.
pub const WRITTEN: usize = 4;

pub const GIVEN: usize = WRITTEN * (ATTCNT + 1);

// What a tag gives of the attributes of its element: of each where the value begins and how long it is.
pub const MARKS: usize = 2 * ATTCNT;

// The records of a type's attributes, for a caller: nine numbers for each.
pub const ATTRIBUTE_RECORD: usize = 9;

pub const ATTRIBUTE_RECORDS: usize = ATTRIBUTE_RECORD * ATTCNT * ELEMENTS;

// Kept: in these three 0 stands for none, as in the cells of the tables, which hold bare numbers (fixed: fixed memory).
//
// A place of a content model, from 1, or 0 for none: at the start of the content none is taken yet.
#[derive(Clone, Copy)]
pub struct Place(pub usize);

// An element's number, from 1 in declaration order. 0 is the document itself where an element is open, data where a token is named, and
// none where one is looked for; `PCDATA` is none of any element.
#[derive(Clone, Copy)]
pub struct ElementNo(pub usize);

// An attribute's number in the list of its element, from 1.
#[derive(Clone, Copy)]
pub struct AttributeNo(pub usize);
