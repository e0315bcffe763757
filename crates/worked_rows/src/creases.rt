//! Creases that lie beside one another, touch, cross and overlap, and creases in all directions.

use crate::runs::Row;

pub const CREASES: [Row; 14] = [
    // Four creases that end at the middle are listed by their lesser ends.
    (
        "3 0 0 100 0\n\
         2 0 0 -100 0\n\
         2 0 100 0 0\n\
         3 0 -100 0 0\n\
         list\n",
        "version 1 pieces 1\n\
         version 2 pieces 2\n\
         version 3 pieces 3\n\
         version 4 pieces 4\n\
         list 4 4\n\
         1 -200 -200 200 -200\n\
         1 200 -200 200 200\n\
         1 200 200 -200 200\n\
         1 -200 200 -200 -200\n\
         2 -100 0 0 0\n\
         3 0 -100 0 0\n\
         2 0 0 0 100\n\
         3 0 0 100 0\n",
        0,
    ),
    // The same one, its reverse, another kind, a part, one that holds it, an overlap, an end on it, one that ends in
    // it, a crossing, then one that goes on from its end and one beside it.
    (
        "2 -100 0 100 0\n\
         2 -100 0 100 0\n\
         2 100 0 -100 0\n\
         3 -100 0 100 0\n\
         2 -50 0 50 0\n\
         list\n\
         2 -150 0 150 0\n\
         2 0 0 150 0\n\
         2 50 0 50 100\n\
         2 0 -100 0 0\n\
         2 -50 -50 50 50\n\
         3 100 0 200 0\n\
         3 -100 1 100 1\n\
         3 150 -50 50 50\n\
         list\n",
        "version 1 pieces 1\n\
         version 2 pieces 1\n\
         version 3 pieces 1\n\
         version 4 pieces 1\n\
         version 5 pieces 3\n\
         list 5 3\n\
         1 -200 -200 200 -200\n\
         1 200 -200 200 200\n\
         1 200 200 -200 200\n\
         1 -200 200 -200 -200\n\
         3 -100 0 -50 0\n\
         2 -50 0 50 0\n\
         3 50 0 100 0\n\
         version 6 pieces 5\n\
         version 7 pieces 6\n\
         version 8 pieces 7\n\
         version 9 pieces 8\n\
         version 10 pieces 11\n\
         version 11 pieces 12\n\
         version 12 pieces 17\n\
         version 13 pieces 21\n\
         list 13 21\n\
         1 -200 -200 200 -200\n\
         1 200 -200 200 200\n\
         1 200 200 -200 200\n\
         1 -200 200 -200 -200\n\
         2 -150 0 -100 0\n\
         2 -100 0 -50 0\n\
         3 -100 1 1 1\n\
         2 -50 -50 0 0\n\
         2 -50 0 0 0\n\
         2 0 -100 0 0\n\
         2 0 0 1 1\n\
         2 0 0 50 0\n\
         3 1 1 50 1\n\
         2 1 1 50 50\n\
         2 50 0 50 1\n\
         2 50 0 100 0\n\
         2 50 1 50 50\n\
         3 50 1 99 1\n\
         2 50 50 50 100\n\
         3 50 50 99 1\n\
         3 99 1 100 0\n\
         3 99 1 100 1\n\
         3 100 0 150 -50\n\
         3 100 0 150 0\n\
         3 150 0 200 0\n",
        0,
    ),
    // Where creases overlap the newest kind wins, piece by piece; a part in the middle stays cut.
    (
        "2 -200 0 100 0\n\
         3 0 0 200 0\n\
         list\n\
         2 -50 0 50 0\n\
         list\n\
         3 -200 0 200 0\n\
         list\n\
         2 200 0 150 0\n\
         list\n",
        "version 1 pieces 1\n\
         version 2 pieces 3\n\
         list 2 3\n\
         1 -200 -200 200 -200\n\
         1 200 -200 200 200\n\
         1 200 200 -200 200\n\
         1 -200 200 -200 -200\n\
         2 -200 0 0 0\n\
         3 0 0 100 0\n\
         3 100 0 200 0\n\
         version 3 pieces 5\n\
         list 3 5\n\
         1 -200 -200 200 -200\n\
         1 200 -200 200 200\n\
         1 200 200 -200 200\n\
         1 -200 200 -200 -200\n\
         2 -200 0 -50 0\n\
         2 -50 0 0 0\n\
         2 0 0 50 0\n\
         3 50 0 100 0\n\
         3 100 0 200 0\n\
         version 4 pieces 5\n\
         list 4 5\n\
         1 -200 -200 200 -200\n\
         1 200 -200 200 200\n\
         1 200 200 -200 200\n\
         1 -200 200 -200 -200\n\
         3 -200 0 -50 0\n\
         3 -50 0 0 0\n\
         3 0 0 50 0\n\
         3 50 0 100 0\n\
         3 100 0 200 0\n\
         version 5 pieces 6\n\
         list 5 6\n\
         1 -200 -200 200 -200\n\
         1 200 -200 200 200\n\
         1 200 200 -200 200\n\
         1 -200 200 -200 -200\n\
         3 -200 0 -50 0\n\
         3 -50 0 0 0\n\
         3 0 0 50 0\n\
         3 50 0 100 0\n\
         3 100 0 150 0\n\
         2 150 0 200 0\n",
        0,
    ),
    // A crease over several pieces and the gaps between them.
    (
        "3 -150 -150 -100 -100\n\
         3 -50 -50 0 0\n\
         3 50 50 150 150\n\
         2 -200 -200 100 100\n\
         list\n",
        "version 1 pieces 1\n\
         version 2 pieces 2\n\
         version 3 pieces 3\n\
         version 4 pieces 7\n\
         list 4 7\n\
         1 -200 -200 200 -200\n\
         1 200 -200 200 200\n\
         1 200 200 -200 200\n\
         1 -200 200 -200 -200\n\
         2 -200 -200 -150 -150\n\
         2 -150 -150 -100 -100\n\
         2 -100 -100 -50 -50\n\
         2 -50 -50 0 0\n\
         2 0 0 50 50\n\
         2 50 50 100 100\n\
         3 100 100 150 150\n",
        0,
    ),
    // One crease cuts three others, and is cut by each.
    (
        "2 -100 -200 -100 200\n\
         3 0 -200 0 200\n\
         2 100 -200 100 200\n\
         3 -200 50 200 50\n\
         list\n",
        "version 1 pieces 1\n\
         version 2 pieces 2\n\
         version 3 pieces 3\n\
         version 4 pieces 10\n\
         list 4 10\n\
         1 -200 -200 200 -200\n\
         1 200 -200 200 200\n\
         1 200 200 -200 200\n\
         1 -200 200 -200 -200\n\
         3 -200 50 -100 50\n\
         2 -100 -200 -100 50\n\
         2 -100 50 -100 200\n\
         3 -100 50 0 50\n\
         3 0 -200 0 50\n\
         3 0 50 0 200\n\
         3 0 50 100 50\n\
         2 100 -200 100 50\n\
         2 100 50 100 200\n\
         3 100 50 200 50\n",
        0,
    ),
    // Through the middle, where four pieces meet, a crease is cut once.
    (
        "2 -200 0 200 0\n\
         2 0 -200 0 200\n\
         3 -200 -200 200 200\n\
         3 -100 100 100 -100\n\
         list\n",
        "version 1 pieces 1\n\
         version 2 pieces 4\n\
         version 3 pieces 6\n\
         version 4 pieces 8\n\
         list 4 8\n\
         1 -200 -200 200 -200\n\
         1 200 -200 200 200\n\
         1 200 200 -200 200\n\
         1 -200 200 -200 -200\n\
         3 -200 -200 0 0\n\
         2 -200 0 0 0\n\
         3 -100 100 0 0\n\
         2 0 -200 0 0\n\
         2 0 0 0 200\n\
         3 0 0 100 -100\n\
         2 0 0 200 0\n\
         3 0 0 200 200\n",
        0,
    ),
    // An end on a crease cuts it, an end at its end does not, and an end before it cuts nothing.
    (
        "2 0 -100 0 100\n\
         3 0 50 100 50\n\
         3 0 100 100 100\n\
         3 0 -150 100 -150\n\
         3 100 0 25 0\n\
         3 -50 -50 0 -100\n\
         list\n",
        "version 1 pieces 1\n\
         version 2 pieces 3\n\
         version 3 pieces 4\n\
         version 4 pieces 5\n\
         version 5 pieces 6\n\
         version 6 pieces 7\n\
         list 6 7\n\
         1 -200 -200 200 -200\n\
         1 200 -200 200 200\n\
         1 200 200 -200 200\n\
         1 -200 200 -200 -200\n\
         3 -50 -50 0 -100\n\
         3 0 -150 100 -150\n\
         2 0 -100 0 50\n\
         2 0 50 0 100\n\
         3 0 50 100 50\n\
         3 0 100 100 100\n\
         3 25 0 100 0\n",
        0,
    ),
    // Multiples of 22.5 degrees that are none of 45, with exact ends.
    (
        "2 0 0 -100+100r2 100\n\
         3 0 0 100-100r2 100\n\
         2 0 0 -100 -100+100r2\n\
         3 100 100-100r2 0 0\n\
         2 0 0 100 41\n\
         2 0 0 100 -99+100r2\n\
         list\n",
        "version 1 pieces 1\n\
         version 2 pieces 2\n\
         version 3 pieces 3\n\
         version 4 pieces 4\n\
         refused baddirection\n\
         refused baddirection\n\
         list 4 4\n\
         1 -200 -200 200 -200\n\
         1 200 -200 200 200\n\
         1 200 200 -200 200\n\
         1 -200 200 -200 -200\n\
         2 -100 -100+100r2 0 0\n\
         3 100-100r2 100 0 0\n\
         2 0 0 -100+100r2 100\n\
         3 0 0 100 100-100r2\n",
        1,
    ),
    // Creases from two corners at 22.5 degrees meet on the middle line, and those of 67.5 degrees on the diagonal.
    (
        "2 -200 -200 200 -600+400r2\n\
         2 200 -200 -200 -600+400r2\n\
         3 -200 -200 -600+400r2 200\n\
         list\n\
         2 0 -200 0 200\n\
         3 -200 200 200 -200\n\
         list\n",
        "version 1 pieces 1\n\
         version 2 pieces 4\n\
         version 3 pieces 7\n\
         list 3 7\n\
         1 -200 -200 200 -200\n\
         1 200 -200 200 200\n\
         1 200 200 -200 200\n\
         1 -200 200 -200 -200\n\
         3 -200 -200 -100r2 -200+100r2\n\
         2 -200 -200 0 -400+200r2\n\
         2 -200 -600+400r2 -100r2 -200+100r2\n\
         3 -100r2 -200+100r2 -600+400r2 200\n\
         2 -100r2 -200+100r2 0 -400+200r2\n\
         2 0 -400+200r2 200 -200\n\
         2 0 -400+200r2 200 -600+400r2\n\
         version 4 pieces 9\n\
         version 5 pieces 16\n\
         list 5 16\n\
         1 -200 -200 200 -200\n\
         1 200 -200 200 200\n\
         1 200 200 -200 200\n\
         1 -200 200 -200 -200\n\
         3 -200 -200 -100r2 -200+100r2\n\
         2 -200 -200 0 -400+200r2\n\
         2 -200 -600+400r2 -100r2 -200+100r2\n\
         3 -200 200 200-200r2 -200+200r2\n\
         3 -100r2 -200+100r2 200-200r2 -200+200r2\n\
         2 -100r2 -200+100r2 0 -400+200r2\n\
         3 200-200r2 -200+200r2 -600+400r2 200\n\
         3 200-200r2 -200+200r2 0 0\n\
         2 0 -200 0 -400+200r2\n\
         2 0 -400+200r2 0 0\n\
         2 0 -400+200r2 -200+200r2 200-200r2\n\
         2 0 -400+200r2 200 -200\n\
         2 0 0 0 200\n\
         3 0 0 -200+200r2 200-200r2\n\
         3 -200+200r2 200-200r2 200 -200\n\
         2 -200+200r2 200-200r2 200 -600+400r2\n",
        0,
    ),
    // Exact fractions are printed as they are shortest.
    (
        "2 0.50 007 00.500 100.0\n\
         3 12.5-0.25r2 0 12.5-0.25r2 -50.125\n\
         2 -3r2 0 -3r2 1\n\
         list\n",
        "version 1 pieces 1\n\
         version 2 pieces 2\n\
         version 3 pieces 3\n\
         list 3 3\n\
         1 -200 -200 200 -200\n\
         1 200 -200 200 200\n\
         1 200 200 -200 200\n\
         1 -200 200 -200 -200\n\
         2 -3r2 0 -3r2 1\n\
         2 0.5 7 0.5 100\n\
         3 12.5-0.25r2 -50.125 12.5-0.25r2 0\n",
        0,
    ),
    // The number is of the least piece whose common point is not exact enough. What meets in an exact point is in no
    // one's way.
    (
        "2 -100 100.0000152587890625 100 -99.9999847412109375\n\
         2 -100 99.0000152587890625 100 -100.9999847412109375\n\
         2 -200 -100 200 -100\n\
         2 -200 150 200 150\n\
         2 -100 -100 100 100\n\
         2 -50 -50 0 0\n\
         2 -1 -1 100 100\n\
         2 -100 -150 99 49\n\
         4 -100 -100 100 100\n\
         3 -100 -99.9999847412109375 100 100.0000152587890625\n\
         list\n",
        "version 1 pieces 1\n\
         version 2 pieces 2\n\
         version 3 pieces 5\n\
         version 4 pieces 6\n\
         refused crossing 3\n\
         refused crossing 3\n\
         refused crossing 3\n\
         refused crossing 3\n\
         version 5 pieces 7\n\
         version 6 pieces 12\n\
         list 6 12\n\
         1 -200 -200 200 -200\n\
         1 200 -200 200 200\n\
         1 200 200 -200 200\n\
         1 -200 200 -200 -200\n\
         2 -200 -100 99.0000152587890625 -100\n\
         2 -200 150 200 150\n\
         3 -100 -99.9999847412109375 -0.5 -0.4999847412109375\n\
         2 -100 99.0000152587890625 -0.5 -0.4999847412109375\n\
         2 -100 100.0000152587890625 0 0.0000152587890625\n\
         3 -0.5 -0.4999847412109375 0 0.0000152587890625\n\
         2 -0.5 -0.4999847412109375 99.0000152587890625 -100\n\
         2 0 0.0000152587890625 100 -99.9999847412109375\n\
         3 0 0.0000152587890625 100 100.0000152587890625\n\
         2 99.0000152587890625 -100 100 -100.9999847412109375\n\
         2 99.0000152587890625 -100 200 -100\n\
         4 -100 -100 100 100\n",
        1,
    ),
    // The sheet is closed, and a crease may end on its border but not lie in it. Its kind is judged first, then its
    // length, its direction, its place.
    (
        "2 -200 -200 200 200\n\
         3 -200 0 -200 100\n\
         3 200 200 -200 200\n\
         3 -200 -200 -200 201\n\
         2 0 300 0 300\n\
         2 0 300 100 350\n\
         1 0 300 0 300\n\
         4 0 0 100 50\n\
         3 200 -200 200.0000152587890625 -200\n\
         3 200r2 0 0 0\n\
         2 -200 300 200 300\n",
        "version 1 pieces 1\n\
         refused onborder\n\
         refused onborder\n\
         refused outsidesheet\n\
         refused zerolength\n\
         refused baddirection\n\
         refused zerolength\n\
         refused baddirection\n\
         refused outsidesheet\n\
         refused outsidesheet\n\
         refused outsidesheet\n",
        1,
    ),
    // An edge lies within one side and changes nothing; after its length and its direction nothing else is asked.
    (
        "1 -200 -200 200 -200\n\
         1 200 100 200 -50.5\n\
         1 -200 200 -100r2 200\n\
         1 -200 -200 200 200\n\
         1 -200 -200 200 -199\n\
         1 -200 -200 200 -201\n\
         1 200 -200 201 -200\n\
         1 0 0 100 0\n\
         1 0 300 300 300\n\
         1 200 200 200 200\n\
         list\n",
        "version 1 pieces 0\n\
         version 2 pieces 0\n\
         version 3 pieces 0\n\
         refused edgeoffborder\n\
         refused baddirection\n\
         refused baddirection\n\
         refused edgeoffborder\n\
         refused edgeoffborder\n\
         refused edgeoffborder\n\
         refused zerolength\n\
         list 3 0\n\
         1 -200 -200 200 -200\n\
         1 200 -200 200 200\n\
         1 200 200 -200 200\n\
         1 -200 200 -200 -200\n",
        1,
    ),
    // Auxiliary lines cut nothing and are cut by nothing; the same one stands once; they may overlap, cross and lie in
    // the border.
    (
        "4 -200 0 200 0\n\
         4 200 0 -200 0\n\
         4 -100 0 100 0\n\
         2 0 -200 0 200\n\
         4 -100 -100 100 100\n\
         4 -200 -200 -200 200\n\
         4 0 0 300 0\n\
         4 0 0 0 0\n\
         3 -200 0 200 0\n\
         list\n",
        "version 1 pieces 1\n\
         version 2 pieces 1\n\
         version 3 pieces 2\n\
         version 4 pieces 3\n\
         version 5 pieces 4\n\
         version 6 pieces 5\n\
         refused outsidesheet\n\
         refused zerolength\n\
         version 7 pieces 8\n\
         list 7 8\n\
         1 -200 -200 200 -200\n\
         1 200 -200 200 200\n\
         1 200 200 -200 200\n\
         1 -200 200 -200 -200\n\
         3 -200 0 0 0\n\
         2 0 -200 0 0\n\
         2 0 0 0 200\n\
         3 0 0 200 0\n\
         4 -200 -200 -200 200\n\
         4 -200 0 200 0\n\
         4 -100 -100 100 100\n\
         4 -100 0 100 0\n",
        1,
    ),
];
