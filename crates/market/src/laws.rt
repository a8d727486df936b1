// What is proved of entering files. Each function's promise is a law; it answers nothing.
ghost use Rattle.market.specs.Figures.{Figure};
ghost use Rattle.market.specs.Files.{OneOutcome, FilesInOrder};

// Entering a file has one outcome.
pub fn one_outcome()
    ensures { OneOutcome }
{}

// The market after some files is the market of the entries that are kept of them, in order.
pub fn files_in_order()
    ensures { FilesInOrder }
{}

// A window, a buy and two baskets, from their bytes.
pub fn figure()
    ensures { Figure }
{}
