// What is proved of records as bytes. Each function's promise is a law; it answers nothing.
ghost use Rattle.records.specs.Write.{ReadsBack, WritesBack, Stands, Unique};

// Reading gives back what was written.
pub fn reads_back()
    ensures { ReadsBack }
{}

// Writing gives back the bytes that were read.
pub fn writes_back()
    ensures { WritesBack }
{}

// A record is read exactly where its encoding stands.
pub fn stands()
    ensures { Stands }
{}

// A record has one spelling.
pub fn unique()
    ensures { Unique }
{}
