// Every kind of record that a file may hold. They stand here once more, since a listing knows only `records`: it reads any
// file, whoever opens it.
use records::Kind;

pub const KINDS: [Kind; 10] = [
    Kind {
        number: 1,
        fields: 3,
    },
    Kind {
        number: 2,
        fields: 6,
    },
    Kind {
        number: 3,
        fields: 10,
    },
    Kind {
        number: 4,
        fields: 8,
    },
    Kind {
        number: 5,
        fields: 8,
    },
    Kind {
        number: 6,
        fields: 2,
    },
    Kind {
        number: 7,
        fields: 2,
    },
    Kind {
        number: 8,
        fields: 1,
    },
    Kind {
        number: 9,
        fields: 2,
    },
    Kind {
        number: 10,
        fields: 0,
    },
];
