// What an exported call of each kind returns, hands out and leaves: definitions and what they promise. There is no code here: the calls stand in
// capi_slice, capi_bitmap and capi_sheet, under names with the prefix `taxolbin_`, and their objects make one archive.
//
// Every call returns the number of document 01, 0 for done. A slice crosses as a pointer and a length. A bitmap's count goes in and out by one
// parameter, and a refused call leaves it; a value goes out by a parameter, 0 where the call is refused. A truth value crosses as a number: 0 is
// false, any other is true, and 1 is handed out for true.
#![tactic(auto)]
