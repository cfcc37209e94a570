// How the program is called.
pub const USAGE: &str = "Tekkuvazh lifetime: a position's whole life, from a sheet of calls.

usage: lifetime PRODUCT MONTH ACCOUNTS INTERVALS CLOSED_DAYS [ACCOUNT] < SHEET

  PRODUCT      baseload, peakload or wheat
  MONTH        the start month, as 2008-03
  ACCOUNTS     how many accounts the book has, 2 to 32
  INTERVALS    margin intervals in hundredths of a percent, as 1000 or 1500,1200,1000:
               by class from the first on, the last one for all further classes
  CLOSED_DAYS  a file of closed days, one date on each line, as 2008-03-24
  ACCOUNT      an account whose path and reckoning are printed as well

The sheet has a line of names, call,buyer,seller,class,lots,price, and a line for each call:
trade, mark, reprice, settle, close, margins, and advance,,,,DAYS,PRICE, which settles, marks
and closes so many days.
";
